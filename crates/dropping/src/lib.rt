// Drop: the first message held of an instance is freed, if it is one that the other end may send now, and the state moves.
//
// It is the message that look shows. One equation says the answer and the whole next record, on every input.
#![tactic(auto)]

ghost use Rattle.std.specs.Prelude.{◌≡◌, ◌+◌, ◌^◌, ◌<◌, ◌≤◌, get_or, Ok, Err};
ghost use Rattle.wire.specs.Instances.{most};
ghost use Rattle.dropping.specs.Dropping.{by_judged, drop_of};

use connection::Connection;
use connection::areas::leave;
use hearing::{Shown, hear, refuse, show, shut};
use judging::{Judged, Outcome};

// What is said of the message, and the record.
#[derive(Clone, Copy)]
pub struct Dropped {
    pub shown: Shown,
    pub connection: Connection,
}

// Without a message, a fault closes.
fn refused(c: Connection, instance: u64, outcome: Outcome) -> Dropped
    ensures { result ≡ by_judged c instance (Err outcome) }
{
    Dropped {
        shown: refuse(outcome),
        connection: shut(c, instance, outcome.number()),
    }
}

// The bytes of a message of instance i are freed, and the state moves.
fn freed(mut c: Connection, i: usize, j: Judged) -> Dropped
    requires { (i < most) × (0 < get_or c.settings.receive i 0) × (get_or c.receiving.starts i 0 + j.len < 2 ^ 32)
        × (j.len ≤ get_or c.receiving.held i 0) }
    ensures { result ≡ by_judged c i (Ok j) }
{
    let n = j.len as u64;
    let k = &mut c;
    let r = &mut k.receiving;
    leave(&k.settings.receive, &mut r.starts, &mut r.held, i, n);
    k.talk.states[i] = j.next;
    k.talk.accepted = judging::marks(k.talk.accepted, i, j.message.kind);
    Dropped {
        shown: show(j),
        connection: c,
    }
}

// Drops the first message held of an instance: 23, 10, what is heard up to 16, and else its bytes are freed and the state
// moves.
#[tactic(auto, unfolding(crate::specs::Dropping::drop_of))]
pub fn drop(c: Connection, store: &[u8], instance: u64) -> Dropped
    ensures { result ≡ drop_of c store.now instance }
{
    match hear(&c, store, instance) {
        Ok(j) => freed(c, instance as usize, j),
        Err(outcome) => refused(c, instance, outcome),
    }
}
