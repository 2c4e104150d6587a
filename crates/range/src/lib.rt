// What of a record is in range: exactly document 01's list, of the bundle's instances.
//
// Every call asks it first, of the record where it lies, and ends at the first test that fails. One pass over the
// instances tests their numbers and sums their capacities, which are tested before they are summed: so it tells how long
// the stores are, too.
#![tactic(auto)]

ghost use Rattle.std.specs.Prelude.{◌≡◌, ◌+◌, ◌<◌, ◌≤◌, not, ◌&&◌, ◌||◌, eqb, leb, ltb, get_or};
ghost use Rattle.base.specs.Below.{all_below};
ghost use Rattle.ring.specs.Ring.{base_of};
ghost use Rattle.wire.specs.Instances.{instances, most, handshake};
ghost use Rattle.rows.specs.Rows.{done_of};
ghost use Rattle.rows.specs.Spoken.{speaks};
ghost use Rattle.range.specs.Ranges.{limit_ok, area_ok, header_ok, accept_ok, instance_ok, in_range, receive_length, send_length, receives, sends};
ghost use Rattle.range.specs.Inside.{rest_ok, Spans};

use connection::Connection;
use connection::closings::gate_ok;
use rows::spoken::{done, last_states};
use wire::instances::{HANDSHAKE, INSTANCES, count};
use wire::segment::HEADER;

// The payload limit S goes from 1 up to this.
pub const MOST_LIMIT: u64 = 65535;

// Capacities go from the one up to the other.
pub const LEAST_CAPACITY: u64 = 16;

pub const MOST_CAPACITY: u64 = 131072;

// How long the stores of a record in range are.
#[derive(Clone, Copy)]
pub struct Lengths {
    pub receive: u64,
    pub send: u64,
}

// The payload limit.
fn limit_ok(s: u64) -> bool
    ensures { result ≡ limit_ok s }
{
    1 <= s && s <= MOST_LIMIT
}

// The area of instance i: its capacity, the start place below it, and the count not above it.
fn area_ok(
    caps: &[u64; INSTANCES],
    starts: &[u64; INSTANCES],
    counts: &[u64; INSTANCES],
    i: usize,
) -> bool
    requires { i < most }
    ensures { result ≡ area_ok caps.now starts.now counts.now i }
{
    let cap = caps[i];
    LEAST_CAPACITY <= cap && cap <= MOST_CAPACITY && starts[i] < cap && counts[i] <= cap
}

// The numbers of instance i, whose protocol ends in the state `last`.
fn instance_ok(c: &Connection, i: usize, last: u64) -> bool
    requires { (i < most) × (last ≡ done_of (speaks c.now.settings.party.bundle i)) }
    ensures { result ≡ instance_ok c.now i }
{
    let s = &c.settings;
    let r = &c.receiving;
    let w = &c.sending;
    area_ok(&s.receive, &r.starts, &r.held, i)
        && area_ok(&s.send, &w.starts, &w.waiting, i)
        && c.talk.states[i] <= last
}

// The n instances of a bundle, up to the first whose numbers are out of range; and the capacities together.
fn areas(c: &Connection, n: usize) -> Option<Lengths>
    requires { (n ≡ instances c.now.settings.party.bundle) × (n ≤ most) }
    ensures { Spans (all_below (instance_ok c.now) n) (base_of c.now.settings.receive n) (base_of c.now.settings.send n) result }
{
    let lasts = last_states(c.settings.party.bundle);
    let mut receive: u64 = 0;
    let mut send: u64 = 0;
    for i in 0..n {
        if !instance_ok(c, i, u64::from(lasts[i])) {
            return None;
        }
        receive += c.settings.receive[i];
        send += c.settings.send[i];
    }
    Some(Lengths { receive, send })
}

// Whether a count and more of it are within a capacity, whatever the numbers.
pub fn fits(count: u64, more: u64, cap: u64) -> bool
    ensures { result ≡ leb (count + more) cap }
{
    count <= cap && more <= cap - count
}

// The header record, and of a payload under way its instance, one of the n, and the rest.
fn header_ok(c: &Connection, n: usize) -> bool
    requires { n ≤ most }
    ensures { result ≡ header_ok n c.now.settings.receive c.now.receiving.held c.now.receiving.header.count
        c.now.receiving.instance c.now.receiving.rest }
{
    if HEADER <= c.receiving.header.count {
        return false;
    }
    if c.receiving.rest == 0 {
        return true;
    }
    if n as u64 <= c.receiving.instance {
        return false;
    }
    let i = c.receiving.instance as usize;
    c.receiving.header.count == 0
        && fits(c.receiving.held[i], c.receiving.rest, c.settings.receive[i])
}

// Accept is marked only with Handshake at Done.
fn accept_ok(c: &Connection) -> bool
    requires { 0 < instances c.now.settings.party.bundle }
    ensures { result ≡ accept_ok c.now.settings.party.bundle c.now.talk.accepted c.now.talk.states }
{
    !c.talk.accepted || c.talk.states[HANDSHAKE] == done(c.settings.party.bundle, HANDSHAKE)
}

// The turn, the header record, the Accept mark and the closing.
fn rest_ok(c: &Connection, n: usize) -> bool
    requires { (n ≡ instances c.now.settings.party.bundle) × (n ≤ most) }
    ensures { result ≡ rest_ok c.now }
{
    1 <= c.sending.turn
        && c.sending.turn < n as u64
        && header_ok(c, n)
        && accept_ok(c)
        && gate_ok(c.settings.party.bundle, c.gate)
}

// How long the stores of a record are, if it is in range.
pub fn range_of(c: &Connection) -> Option<Lengths>
    ensures { Spans (in_range c.now) (receive_length c.now.settings) (send_length c.now.settings) result }
{
    let n = count(c.settings.party.bundle);
    if !limit_ok(c.settings.limit) {
        return None;
    }
    let lengths = areas(c, n)?;
    if !rest_ok(c, n) {
        return None;
    }
    Some(lengths)
}

// Whether a record is in range, and a receive store of n bytes is as long as it says.
pub fn receives(c: &Connection, n: usize) -> bool
    ensures { result ≡ receives c.now n }
{
    match range_of(c) {
        Some(lengths) => n as u64 == lengths.receive,
        None => false,
    }
}

// Whether a record is in range, and a send store of n bytes is as long as it says.
pub fn sends(c: &Connection, n: usize) -> bool
    ensures { result ≡ sends c.now n }
{
    match range_of(c) {
        Some(lengths) => n as u64 == lengths.send,
        None => false,
    }
}
