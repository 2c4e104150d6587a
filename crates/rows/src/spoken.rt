// The protocol that an instance speaks, and the state that it ends in.
ghost use Rattle.std.specs.Prelude.{◌≡◌, ◌<◌};
ghost use Rattle.wire.specs.Instances.{instances};
ghost use Rattle.rows.specs.Rows.{done_of};
ghost use Rattle.rows.specs.Spoken.{speaks};
ghost use Rattle.rows.specs.Inside.{LastStates};

use crate::Protocol;
use wire::instances::{BUNDLES, INSTANCES, NUMBERS, known};

// By protocol number on the wire. No instance has 1.
static SPOKEN: [Protocol; NUMBERS] = [
    Protocol::Handshake,
    Protocol::Handshake,
    Protocol::ChainSync,
    Protocol::BlockFetch,
    Protocol::TxSubmission,
    Protocol::ChainSync,
    Protocol::LocalTxSubmission,
    Protocol::LocalStateQuery,
    Protocol::KeepAlive,
];

// By bundle and instance: the state Done of its protocol; 0 where there is no instance.
static LAST: [[u8; INSTANCES]; BUNDLES] = [
    [2, 4, 4, 3, 3, 5, 5, 2, 2],
    [2, 4, 2, 4, 0, 0, 0, 0, 0],
];

pub fn protocol(bundle: u64, i: usize) -> Protocol
    requires { i < instances bundle }
    ensures { result ≡ speaks bundle i }
{
    SPOKEN[usize::from(wire::instances::protocol(bundle, i))]
}

// By instance, the state that its protocol ends in, which is its last by number. An unknown bundle has no instance.
pub fn last_states(bundle: u64) -> [u8; INSTANCES]
    ensures { LastStates bundle result }
{
    if !known(bundle) {
        return [0; INSTANCES];
    }
    LAST[bundle as usize]
}

// The state that instance i's protocol ends in.
pub fn done(bundle: u64, i: usize) -> u64
    requires { i < instances bundle }
    ensures { result ≡ done_of (speaks bundle i) }
{
    u64::from(last_states(bundle)[i])
}
