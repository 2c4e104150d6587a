// Feed: a run of bytes, cut anywhere, goes into the receive store, segment by segment.
//
// One equation says the number, the bytes used, the whole next record and every byte of the receive store, on every
// input. It goes byte by byte; the code reads in steps: payload bytes in runs, the eight bytes of a header where they are
// all there, and else one. The range is tested once for a call, the room once for a segment, and the record is put
// together once, at the end.
#![tactic(auto)]

ghost use Rattle.std.specs.Prelude.{◌≡◌, ◌+◌, ◌-◌, ◌<◌, length};
ghost use Rattle.connection.specs.declared.Gate.TheVariants.{Open};
ghost use Rattle.admitting.specs.Inside.{reception};
ghost use Rattle.feeding.specs.Feeding.{fed, used, left, told, refused, feed_of};
ghost use Rattle.feeding.specs.Inside.{Placed, Sound, Under, Lays, Steps};

use admitting::{Step, Way, headed, header_whole, instance_for};
use connection::areas::write;
use connection::closings::{is_open, number_of};
use connection::{Connection, Gate, Receiving};
use range::receives;
use wire::instances::{INSTANCES, Party};
use wire::segment::HEADER;

// Feed's answer: the number, how many bytes were used, and the record.
// Kept: the number in front, which README promises of every answer; and a record with each, for a fault hands back a closed one (`feed_of`).
#[derive(Clone, Copy)]
pub struct Fed {
    pub number: u64,
    pub used: usize,
    pub connection: Connection,
}

// What a call reads: which end we are, by instance the receive capacity and where in its area the first held byte is, and
// the bytes that are fed.
#[derive(Clone, Copy)]
struct Intake<'a> {
    party: Party,
    caps: &'a [u64; INSTANCES],
    starts: &'a [u64; INSTANCES],
    input: &'a [u8],
    ghost placed: { Placed party.bundle caps.now starts.now },
}

impl Intake<'_> {
    // As many bytes of the payload under way as there are from place `at` on.
    #[tactic(auto, using(wire::proofs::InstanceLaws::at_most))]
    fn kept(self, held: &mut [u64; INSTANCES], w: Way, store: &mut [u8], at: usize) -> Step
        requires { Under self.party.bundle self.caps.now held.old w (length store.old) × (at < length self.input.now) }
        ensures { Lays self.entry.caps.now self.entry.starts.now held.old held.new w store.old
            store.new self.entry.input.now at result }
    {
        let i = w.instance as usize;
        let n = (w.rest as usize).min(self.input.len() - at);
        let place = self.starts[i] + held[i];
        write(store, self.caps, i, place, self.input, at, n);
        held[i] += n as u64;
        let rest = w.rest - n as u64;
        Step {
            way: Way {
                instance: instance_for(rest, w.instance),
                rest,
                ..w
            },
            gate: Gate::Open,
            used: n,
        }
    }

    // One step: of the payload under way as many bytes as there are; else a header's eight bytes where none has come and all
    // are there, and one byte of it where not.
    fn part(self, held: &mut [u64; INSTANCES], w: Way, store: &mut [u8], at: usize) -> Step
        requires sound { Sound self.party.bundle self.caps.now (reception self.starts.now held.old w Open store.old) }
        requires at_in_bounds { at < length self.input.now }
        ensures { Steps self.entry.party self.entry.caps.now self.entry.starts.now held.old held.new w store.old
            store.new self.entry.input.now at result }
    {
        if 0 < w.rest {
            return self.kept(held, w, store, at);
        }
        if w.header.count == 0 && HEADER <= self.input.len() - at {
            return header_whole(self.party, self.caps, held, w, self.input, at);
        }
        headed(self.party, self.caps, held, w, self.input[at])
    }

    // All of the input, or up to the byte that closes; used counts from its front.
    fn steps(self, held: &mut [u64; INSTANCES], w: Way, store: &mut [u8]) -> Step
        requires { Sound self.party.bundle self.caps.now (reception self.starts.now held.old w Open store.old) }
        ensures store_after { reception self.entry.starts.now held.new result.way result.gate store.new
            ≡ fed self.entry.party self.entry.caps.now (reception self.entry.starts.now held.old w Open store.old)
            self.entry.input.now }
        ensures used_value { result.used
            ≡ used self.entry.party self.entry.caps.now (reception self.entry.starts.now held.old w Open store.old)
            self.entry.input.now }
    {
        let mut way = w;
        let mut at: usize = 0;
        // Kept: no `for`, since a step uses as many bytes as it says.
        while at < self.input.len() {
            let t = self.part(held, way, store, at);
            way = t.way;
            at += t.used;
            if !is_open(t.gate) {
                return Step { used: at, ..t };
            }
        }
        Step {
            way,
            gate: Gate::Open,
            used: at,
        }
    }
}

// The number of the closing that is left, or 0.
fn left(g: Gate) -> u64
    ensures { result ≡ left g }
{
    match g {
        Gate::Open => 0,
        Gate::Closed(x) => number_of(x),
    }
}

// The record as it was given, and no byte used.
fn refused(c: Connection, number: u64) -> Fed
    ensures { result ≡ refused c number }
{
    Fed {
        number,
        used: 0,
        connection: c,
    }
}

// Feeds a run of bytes: 23, 20, and else the bytes up to the one that closes. The record is put together once, at the end.
pub fn feed(c: Connection, store: &mut [u8], input: &[u8]) -> Fed
    ensures { told result store.new ≡ feed_of c store.old input.now }
{
    if !receives(&c, store.len()) {
        return refused(c, 23);
    }
    if !is_open(c.gate) {
        return refused(c, 20);
    }
    let r = c.receiving;
    let mut held = r.held;
    let way = Way {
        header: r.header,
        instance: r.instance,
        rest: r.rest,
    };
    let intake = Intake {
        party: c.settings.party,
        caps: &c.settings.receive,
        starts: &r.starts,
        input,
    };
    let x = intake.steps(&mut held, way, store);
    let y = x.way;
    Fed {
        number: left(x.gate),
        used: x.used,
        connection: Connection {
            receiving: Receiving {
                held,
                header: y.header,
                instance: y.instance,
                rest: y.rest,
                ..r
            },
            gate: x.gate,
            ..c
        },
    }
}
