// Status: what a connection holds, and why it was closed. One equation determines the report, on every record.
#![tactic(auto)]

ghost use Rattle.std.specs.Prelude.{◌≡◌, ◌≤◌};
ghost use Rattle.wire.specs.Instances.{most};
ghost use Rattle.telling.specs.Statuses.{up_to, refused_status, status_of};

use connection::{Connection, Gate};
use range::range_of;
use ready::Ready;
use wire::instances::{INSTANCES, count};

// The number, 0 or 23; the held and waiting counts; the ready word, how many are ready and which is lowest; and the
// gate, which holds the closing.
// Kept: the number in front, which README promises of every answer (`status_of`).
#[derive(Clone, Copy)]
pub struct Report {
    pub number: u64,
    pub held: [u64; INSTANCES],
    pub waiting: [u64; INSTANCES],
    pub ready: Ready,
    pub gate: Gate,
}

// The first n entries of an array, and 0 above.
fn up_to(n: usize, a: &[u64; INSTANCES]) -> [u64; INSTANCES]
    requires { n ≤ most }
    ensures { result ≡ up_to n a.now }
{
    let mut shown = [0; INSTANCES];
    shown[..n].copy_from_slice(&a[..n]);
    shown
}

// Of a record that is not in range, 23 and nothing else.
fn refused() -> Report
    ensures { result ≡ refused_status }
{
    let none = [0; INSTANCES];
    let ready = Ready {
        word: 0,
        count: 0,
        lowest: 0,
    };
    Report {
        number: 23,
        held: none,
        waiting: none,
        ready,
        gate: Gate::Open,
    }
}

// Tells of a record in range.
pub fn status(c: Connection) -> Report
    ensures { result ≡ status_of c }
{
    let Some(_) = range_of(&c) else {
        return refused();
    };
    let n = count(c.settings.party.bundle);
    Report {
        number: 0,
        held: up_to(n, &c.receiving.held),
        waiting: up_to(n, &c.sending.waiting),
        ready: ready::ready_of(c.sending.waiting, n),
        gate: c.gate,
    }
}
