// What look, drop and put ask of one instance: who may send, whether bytes are a message with a row in the present state, and
// where it leads.
//
// `heard` has the order of look's and drop's refusals and notices up to 16, `said` that of put's. One reader and one row search serve
// both. They read the record, and nothing here changes anything. What comes of it is a message and where it leads, or the
// name of a notice or refusal, which carries what else is known; `number` and `offset` tell what an answer says of it.
#![tactic(auto)]

ghost use Rattle.std.specs.Prelude.{◌≡◌, not, ◌&&◌, cond, ◌≤◌, ◌<◌, eqb, length, Ok};
ghost use Rattle.ring.specs.Inside.{seen};
ghost use Rattle.wire.specs.Instances.{instances, handshake, initiates, role_of};
ghost use Rattle.item.specs.Verdict.{verdict};
ghost use Rattle.rows.specs.Rows.{agency_of};
ghost use Rattle.judging.specs.Judging.{outcome_number, outcome_offset, holds, view_of, unjudged, by_row, judged_of, by_verdict, heard, said, marks};

use connection::Connection;
use connection::closings::{AFTER_DONE, BYTES_BAD, NO_MESSAGE, NO_ROW, is_open};
use item::NotWhole;
use messages::{Message, Unread};
use ring::view::View;
use rows::{Agency, Protocol};
use wire::instances::{HANDSHAKE, Party};

// Why there is no message that moves the state: a notice or a refusal.
#[derive(Clone, Copy)]
pub enum Outcome {
    // no whole item yet
    Waiting,
    // agency is ours, so nothing is heard
    OurTurn,
    // the protocol has ended, and nothing is held
    Finished,
    // at this place, counted from the first byte, is the first after which no item is possible
    BytesBad(usize),
    // no message of the protocol, and why; of put's bytes also such as are not exactly one item
    NoMessage(Unread),
    // a message that has no row in the present state
    NoRow,
    // the protocol has ended, and bytes are held
    AfterDone,
    // Handshake hasn't ended in Accept
    NoAccept,
    // the connection is closed
    Closed,
    // agency is not ours, so nothing may be said
    NotOurTurn,
    // a number of the record out of range, or a store of another length
    OutOfRange,
    // no instance of the bundle
    NoInstance,
    // a message that goes around its area's end, and is longer than scratch
    NoRoom,
}

// A message that moves the state: its length, what it says, and the next state.
#[derive(Clone, Copy)]
pub struct Judged {
    pub len: usize,
    pub message: Message,
    pub next: u64,
}

// The number of Accept, among Handshake's messages.
// Kept: a kind is the message's number on the wire (000), so that any number may be read.
const ACCEPT: u64 = 1;

// Whether agency is with us, as initiator or not.
fn holds(initiator: bool, agency: Agency) -> bool
    ensures { result ≡ holds initiator agency }
{
    match agency {
        Agency::Initiator => initiator,
        Agency::Responder => !initiator,
        Agency::Nobody => false,
    }
}

// Whether we have agency in a state of instance i, which speaks p. At Done nobody has.
fn ours(party: Party, i: usize, p: Protocol, state: u64) -> bool
    requires { i < instances party.bundle }
    ensures { result ≡ holds (initiates party.side (role_of party.bundle i)) (agency_of p state) }
{
    let agency = rows::agent(p, state);
    holds(wire::instances::mode(party, i) == 0, agency)
}

// Whether Handshake, which hasn't ended in Accept, bars instance i.
fn barred(accepted: bool, i: usize) -> bool
    ensures { result ≡ (not (eqb i handshake) && not accepted) }
{
    i != HANDSHAKE && !accepted
}

// Whether Handshake has ended in Accept, once a message of this kind has moved instance i.
pub fn marks(accepted: bool, i: usize, kind: u64) -> bool
    ensures { result ≡ marks accepted i kind }
{
    accepted || i == HANDSHAKE && kind == ACCEPT
}

impl Outcome {
    // Document 01's number.
    pub fn number(self) -> u64
        ensures { result ≡ outcome_number self }
    {
        match self {
            Outcome::Waiting => 1,
            Outcome::OurTurn => 2,
            Outcome::Finished => 3,
            Outcome::BytesBad(_) => BYTES_BAD,
            Outcome::NoMessage(_) => NO_MESSAGE,
            Outcome::NoRow => NO_ROW,
            Outcome::AfterDone => AFTER_DONE,
            Outcome::NoAccept => 19,
            Outcome::Closed => 20,
            Outcome::NotOurTurn => 21,
            Outcome::OutOfRange => 23,
            Outcome::NoInstance => 10,
            Outcome::NoRoom => 18,
        }
    }

    // The offset that an answer has with it.
    pub fn offset(self) -> usize
        ensures { result ≡ outcome_offset self }
    {
        match self {
            Outcome::BytesBad(at) => at,
            _ => 0,
        }
    }
}

// Where a message of so many bytes leads, if it has a row.
fn by_row(len: usize, message: Message, next: Option<u64>) -> Result<Judged, Outcome>
    ensures { result ≡ by_row len message next }
{
    match next {
        Some(next) => Ok(Judged { len, message, next }),
        None => Err(Outcome::NoRow),
    }
}

// Bytes that were measured, in a state of the protocol.
fn judge(p: Protocol, state: u64, v: View<'_>) -> Result<Judged, Outcome>
    requires { verdict (seen v) ≡ Ok v.len }
    ensures { result ≡ judged_of p state (seen v.entry) }
{
    match messages::read(p, v) {
        Ok(message) => {
            let next = rows::find(p, state, message.kind, messages::flag(p, message));
            by_row(v.len, message, next)
        }
        Err(why) => Err(Outcome::NoMessage(why)),
    }
}

// An item that is not whole yet will not be, once the connection is closed.
fn not_whole(closed: bool) -> Outcome
    ensures { result ≡ cond closed Outcome.Closed Outcome.Waiting }
{
    if closed {
        Outcome::Closed
    } else {
        Outcome::Waiting
    }
}

// The first item among the bytes held, in a state of the protocol.
fn measured(p: Protocol, state: u64, closed: bool, held: View<'_>) -> Result<Judged, Outcome>
    ensures { result ≡ by_verdict p state closed (seen held.entry) (verdict (seen held.entry)) }
{
    match cbor::measure(held) {
        Ok(len) => {
            let View { bytes, from, .. } = held;
            judge(p, state, View { bytes, from, len })
        }
        Err(NotWhole::Bad(at)) => Err(Outcome::BytesBad(at)),
        Err(NotWhole::Incomplete) => Err(not_whole(closed)),
    }
}

// At Done, where n bytes are held.
fn ended(n: usize) -> Outcome
    ensures { result ≡ cond (eqb n 0) Outcome.Finished Outcome.AfterDone }
{
    if n == 0 {
        Outcome::Finished
    } else {
        Outcome::AfterDone
    }
}

// What look and drop ask of instance i, of the bytes held.
pub fn heard(c: &Connection, i: usize, held: View<'_>) -> Result<Judged, Outcome>
    requires { i < instances c.now.settings.party.bundle }
    ensures { result ≡ heard (view_of c.now i (seen held.entry)) }
{
    let party = c.settings.party;
    let state = c.talk.states[i];
    if barred(c.talk.accepted, i) {
        return Err(Outcome::NoAccept);
    }
    let p = rows::spoken::protocol(party.bundle, i);
    if state == rows::done(p) {
        return Err(ended(held.len));
    }
    if ours(party, i, p, state) {
        return Err(Outcome::OurTurn);
    }
    measured(p, state, !is_open(c.gate), held)
}

// All bytes of a slice, in a state of the protocol. Those that are not exactly one item are no message.
fn judge_slice(p: Protocol, state: u64, s: &[u8]) -> Result<Judged, Outcome>
    ensures { result ≡ judged_of p state s.now }
{
    match cbor::measure_slice(s) {
        Ok(n) if n == s.len() => judge(p, state, View::all(s)),
        _ => Err(Outcome::NoMessage(Unread::NotArray)),
    }
}

// What put asks of instance i, of a message.
pub fn said(c: &Connection, i: usize, message: &[u8]) -> Result<Judged, Outcome>
    requires { i < instances c.now.settings.party.bundle }
    ensures { result ≡ said (view_of c.now i message.now) }
{
    let party = c.settings.party;
    let state = c.talk.states[i];
    if !is_open(c.gate) {
        return Err(Outcome::Closed);
    }
    if barred(c.talk.accepted, i) {
        return Err(Outcome::NoAccept);
    }
    let p = rows::spoken::protocol(party.bundle, i);
    if ours(party, i, p, state) {
        return judge_slice(p, state, message);
    }
    Err(Outcome::NotOurTurn)
}
