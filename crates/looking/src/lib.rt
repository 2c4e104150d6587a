// Look: the first message held of an instance is shown, if it is one that the other end may send now, and stays held.
//
// Where it lies in one run it is shown as a part of the receive store, and nothing is copied; where it goes around its
// area's end it is joined in scratch, a buffer that the caller lends. `look` answers by value and tells the place; `part`
// hands out the bytes there, and so does `meet`, in whose signature store and scratch have a lifetime each. One equation
// says look's answer, the whole next record and every byte of scratch, on every input; and `part` says its bytes and which
// memory they lie in.
#![tactic(auto)]

ghost use Rattle.std.specs.Prelude.{◌≡◌, length, get_or};
ghost use Rattle.ring.specs.Ring.{base_of};
ghost use Rattle.connection.specs.Areas.{bytes_of};
ghost use Rattle.hearing.specs.Inside.{Held};
ghost use Rattle.looking.specs.Looking.{told, place_of, joined, shown_at, message_place, shown_in, look_of, Cut, Shows};

use connection::Connection;
use hearing::{Shown, hear, refuse, show, shut};
use judging::{Judged, Outcome};
use wire::instances::INSTANCES;

// Where a message is shown: in the store from a place on, at the front of scratch, or not at all.
// Kept: three places and no Option, since `part` is given any of them (`Shows`), and `look_of` answers one always.
#[derive(Clone, Copy)]
pub enum Place {
    Store(usize),
    Scratch,
    Nowhere,
}

// What is said of the message, where it is, and the record.
#[derive(Clone, Copy)]
pub struct Looked {
    pub shown: Shown,
    pub place: Place,
    pub connection: Connection,
}

// Where the n bytes held of instance i from the place `start` on are shown. Those that go around are joined in scratch, if
// it is long enough.
fn join(
    scratch: &mut [u8],
    store: &[u8],
    caps: &[u64; INSTANCES],
    i: usize,
    start: u64,
    n: usize,
) -> Place
    requires { Held caps.now (length store.now) i start n }
    ensures { (result ≡ place_of (base_of caps.now i) (get_or caps.now i 0) start n (length scratch.old))
        × (scratch.new ≡ joined result (bytes_of caps.now store.now i start n) scratch.old) }
{
    let base = ring::base_of(caps, i);
    let cap = caps[i] as usize;
    let first = start as usize;
    if n <= cap - first {
        return Place::Store(base + first);
    }
    if scratch.len() < n {
        return Place::Nowhere;
    }
    ring::read(scratch, 0, store, base, cap, first, n);
    Place::Scratch
}

// What is said of a message that is shown there: one that is nowhere is longer than scratch.
fn shown_at(place: Place, shown: Shown) -> Shown
    ensures { result ≡ shown_at place shown }
{
    match place {
        Place::Store(_) | Place::Scratch => shown,
        Place::Nowhere => refuse(Outcome::NoRoom),
    }
}

// A message of instance i is shown, or refused by 18, if it goes around and is longer than scratch.
fn seen(c: Connection, store: &[u8], i: usize, scratch: &mut [u8], j: Judged) -> Looked
    requires { Held c.settings.receive (length store.now) i (get_or c.receiving.starts i 0) j.len }
    ensures { told result scratch.new ≡ shown_in c store.now i scratch.old j (message_place c i j.len (length scratch.old)) }
{
    let start = c.receiving.starts[i];
    let place = join(scratch, store, &c.settings.receive, i, start, j.len);
    Looked {
        shown: shown_at(place, show(j)),
        place,
        connection: c,
    }
}

// Looks at the first message held of an instance: 23, 10, what is heard up to 16, 18 for one that goes around and is
// longer than scratch, and else the message.
#[tactic(auto, unfolding(crate::specs::Looking::look_of))]
pub fn look(c: Connection, store: &[u8], instance: u64, scratch: &mut [u8]) -> Looked
    ensures { told result scratch.new ≡ look_of c store.now instance scratch.old }
{
    match hear(&c, store, instance) {
        Ok(j) => seen(c, store, instance as usize, scratch, j),
        Err(outcome) => Looked {
            shown: refuse(outcome),
            place: Place::Nowhere,
            connection: shut(c, instance, outcome.number()),
        },
    }
}

// The len bytes from the place `at` on, or none, if there are not so many.
fn cut<'a>(s: &'a [u8], at: usize, len: usize) -> &'a [u8]
    ensures { Cut s.entry at len result }
{
    if s.len() < at {
        return &s[0..0];
    }
    if s.len() - at < len {
        return &s[0..0];
    }
    &s[at..at + len]
}

// The len bytes at a place that look told, of the store and the scratch that it was lent. Without a message, and for a
// place that is not in them, no bytes.
pub fn part<'a>(store: &'a [u8], scratch: &'a [u8], place: Place, len: usize) -> &'a [u8]
    ensures { Shows place len store.entry scratch.entry result }
{
    match place {
        Place::Store(at) => cut(store, at, len),
        Place::Scratch => cut(scratch, 0, len),
        Place::Nowhere => cut(store, 0, 0),
    }
}

// The same, of a store and a scratch with a lifetime each, which meet in the part.
// Kept: beside `part`, since document 01 names two lifetimes that meet in one part.
pub fn meet<'a, 'b: 'a>(store: &'a [u8], scratch: &'b [u8], place: Place, len: usize) -> &'a [u8]
    ensures { Shows place len store.entry scratch.entry result }
{
    part(store, scratch, place, len)
}
