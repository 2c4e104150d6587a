// What the header of a segment leads to: its eight bytes are added to the header record, and when the eighth is in, it is a
// fault, which closes, or a payload begins.
//
// A byte at a time, or all eight where they are there; the room of a payload is asked once for a segment.
#![tactic(auto)]

ghost use Rattle.std.specs.Prelude.{◌≡◌, ◌+◌, ◌≤◌, ◌<◌, length};
ghost use Rattle.wire.specs.Instances.{most};
ghost use Rattle.wire.specs.Segments.{header_length};
ghost use Rattle.admitting.specs.Admitting.{astray, admitted, admission, instance_for};
ghost use Rattle.admitting.specs.Inside.{header_at, Settles, Heads};

use connection::closings::{OVERFLOW, UNKNOWN_PROTOCOL, WRONG_MODE};
use connection::{Closing, Gate};
use range::fits;
use wire::instances::{INSTANCES, Party, RouteError};
use wire::segment::{HEADER, Header};

// What a whole header leads to, if not to a fault: a payload, its instance and how many bytes it has.
#[derive(Clone, Copy)]
pub struct Payload {
    pub instance: u64,
    pub len: u64,
}

// What changes from step to step: the header record; and of a payload under way, its instance and the bytes to come.
#[derive(Clone, Copy)]
pub struct Way {
    pub header: Header,
    pub instance: u64,
    pub rest: u64,
}

// What a step of reading leads to, and how many bytes it used.
#[derive(Clone, Copy)]
pub struct Step {
    pub way: Way,
    pub gate: Gate,
    pub used: usize,
}

// The fault of a segment that goes to no instance. One with the mode of our own side names its instance.
fn astray(e: RouteError) -> Closing
    ensures { result ≡ astray e }
{
    match e {
        RouteError::Unknown => Closing::Bare(UNKNOWN_PROTOCOL),
        RouteError::Wrong(i) => Closing::Of(WRONG_MODE, i as u64),
    }
}

// A payload of n bytes for instance i, if there is room for all of it; asked once for a segment.
fn room(
    caps: &[u64; INSTANCES],
    held: &[u64; INSTANCES],
    n: u64,
    i: usize,
) -> Result<Payload, Closing>
    requires { i < most }
    ensures { result ≡ admitted caps.now held.now n (Ok i) }
{
    let instance = i as u64;
    if !fits(held[i], n, caps[i]) {
        return Err(Closing::Of(OVERFLOW, instance));
    }
    Ok(Payload { instance, len: n })
}

// What a whole header leads to: its route and its length decide.
fn admit(
    party: Party,
    caps: &[u64; INSTANCES],
    held: &[u64; INSTANCES],
    h: Header,
) -> Result<Payload, Closing>
    ensures { result ≡ admission party caps.now held.now h }
{
    let d = h.segment();
    match wire::instances::find(party, d.protocol, d.mode) {
        Ok(i) => room(caps, held, u64::from(d.len), i),
        Err(e) => Err(astray(e)),
    }
}

// A payload's instance while bytes of it are to come.
pub fn instance_for(rest: u64, i: u64) -> u64
    ensures { result ≡ instance_for rest i }
{
    if rest == 0 { 0 } else { i }
}

// A whole header closes or begins a payload, and the header record is emptied; used counts the bytes of this step.
fn settled(w: Way, a: Result<Payload, Closing>, used: usize) -> Step
    ensures { Settles w a used result }
{
    let header = Header::empty();
    match a {
        Err(x) => Step {
            way: Way { header, ..w },
            gate: Gate::Closed(x),
            used,
        },
        Ok(p) => Step {
            way: Way {
                header,
                instance: instance_for(p.len, p.instance),
                rest: p.len,
            },
            gate: Gate::Open,
            used,
        },
    }
}

// One byte of a header. At the eighth the header is settled.
pub fn headed(party: Party, caps: &[u64; INSTANCES], held: &[u64; INSTANCES], w: Way, b: u8) -> Step
    ensures { Heads party caps.now held.now w b result }
{
    let header = w.header.add(b);
    if header.whole() {
        return settled(w, admit(party, caps, held, header), 1);
    }
    Step {
        way: Way { header, ..w },
        gate: Gate::Open,
        used: 1,
    }
}

// The header whose eight bytes are there from place `at` on, each added in its step. The steps are counted and begin
// with an empty record, so the compiler makes one load of them.
fn header_at(input: &[u8], at: usize) -> Header
    requires { at + header_length ≤ length input.now }
    ensures { result ≡ header_at input.now at }
{
    let mut header = Header::empty();
    for j in 0..HEADER {
        header = header.add(input[at + j]);
    }
    header
}

// All eight bytes of a header, from place `at` on.
pub fn header_whole(
    party: Party,
    caps: &[u64; INSTANCES],
    held: &[u64; INSTANCES],
    w: Way,
    input: &[u8],
    at: usize,
) -> Step
    requires { at + header_length ≤ length input.now }
    ensures { Settles w (admission party caps.now held.now (header_at input.now at)) header_length result }
{
    let header = header_at(input, at);
    settled(w, admit(party, caps, held, header), HEADER)
}
