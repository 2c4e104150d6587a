// What look and drop have in common: what is heard of an instance, what an answer says of it, and the closing that a
// fault leaves.
//
// Look and drop stand on one judgement: `hear` asks whether the record is in range, whether there is such an instance, and
// then, by `judging::heard`, whether its first message is one that the other end may send now. Nothing is changed, and no
// buffer is asked for.
#![tactic(auto)]

ghost use Rattle.std.specs.Prelude.{◌≡◌, length, get_or, Ok, Err};
ghost use Rattle.range.specs.Besides.Ranges.{InReceive};
ghost use Rattle.judging.specs.Judging.{heard};
ghost use Rattle.hearing.specs.Inside.{Held};
ghost use Rattle.hearing.specs.Hearing.{seen, hear_of, shown_by, shut};

use connection::closings::{close, heard_fault};
use connection::{Closing, Connection};
use judging::{Judged, Outcome};
use messages::Message;
use range::receives;
use ring::view::View;
use wire::instances::count;

// The number; where it is 0, the message's length and what it says; where it is 14, the offset of the first byte after
// which no item is possible, counted from the message's first byte.
// Kept: the number in front, which README promises of every answer (`look_of`, `drop_of`).
#[derive(Clone, Copy)]
pub struct Shown {
    pub number: u64,
    pub len: usize,
    pub offset: usize,
    pub message: Message,
}

// What an answer says of a message.
pub fn show(j: Judged) -> Shown
    ensures { result ≡ shown_by (Ok j) }
{
    Shown {
        number: 0,
        len: j.len,
        offset: 0,
        message: j.message,
    }
}

// What an answer says without one.
pub fn refuse(outcome: Outcome) -> Shown
    ensures { result ≡ shown_by (Err outcome) }
{
    Shown {
        number: outcome.number(),
        len: 0,
        offset: outcome.offset(),
        message: messages::begin(0),
    }
}

// A fault closes the connection, with its number and instance; any other number changes nothing.
pub fn shut(c: Connection, instance: u64, number: u64) -> Connection
    ensures { result ≡ shut c instance number }
{
    if heard_fault(number) {
        return Connection {
            gate: close(c.gate, Closing::Of(number, instance)),
            ..c
        };
    }
    c
}

// What is heard of instance i, whose bytes held lie around its area.
fn listen(c: &Connection, store: &[u8], i: usize) -> Result<Judged, Outcome>
    requires asked { InReceive c.now store.now i }
    requires held { Held c.now.settings.receive (length store.now) i (get_or c.now.receiving.starts i 0) (get_or c.now.receiving.held i 0) }
    ensures { result ≡ heard (seen c.now store.now i) }
{
    let caps = &c.settings.receive;
    let base = ring::base_of(caps, i);
    let end = base + caps[i] as usize;
    let held = View {
        bytes: &store[base..end],
        from: c.receiving.starts[i] as usize,
        len: c.receiving.held[i] as usize,
    };
    judging::heard(c, i, held)
}

// What is heard of an instance: 23, 10, and then what `judging::heard` has.
pub fn hear(c: &Connection, store: &[u8], instance: u64) -> Result<Judged, Outcome>
    ensures { result ≡ hear_of c.now store.now instance }
{
    if !receives(c, store.len()) {
        return Err(Outcome::OutOfRange);
    }
    if count(c.settings.party.bundle) as u64 <= instance {
        return Err(Outcome::NoInstance);
    }
    listen(c, store, instance as usize)
}
