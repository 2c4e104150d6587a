// Next segment: the next instance with bytes to send, in its turn, has the first of them put behind a header.
//
// One equation says the answer, the whole next record and every byte of the lent buffer, on every input.
#![tactic(auto)]

ghost use Rattle.std.specs.Prelude.{◌≡◌, ◌<◌, ◌≤◌, length};
ghost use Rattle.std.proofs.lemmas.List.Edits.{sets};
ghost use Rattle.wire.specs.Segments.{header_length, encoded};
ghost use Rattle.wire.specs.Instances.{instances};
ghost use Rattle.sending.specs.NextSegment.{told, refused, headed, next_of};

use connection::areas::{leave, read};
use connection::closings::is_open;
use connection::{Connection, Sending};
use range::sends;
use ready::{choose, turn_after, word};
use wire::instances::{Party, count};
use wire::segment::{HEADER, Segment};

// The number; where it is 0, how long header and payload are together; and the record.
// Kept: the number in front, which README promises of every answer (`next_of`).
#[derive(Clone, Copy)]
pub struct Made {
    pub number: u64,
    pub len: usize,
    pub connection: Connection,
}

// A refusal or a notice changes nothing.
fn refused(c: Connection, number: u64) -> Made
    ensures { result ≡ refused c number }
{
    Made {
        number,
        len: 0,
        connection: c,
    }
}

// The header of n bytes of instance i.
fn put_header(buf: &mut [u8], party: Party, time: u32, i: usize, n: usize)
    requires { (i < instances party.bundle) × (n ≤ 65535) × (header_length ≤ length buf.old) }
    ensures { buf.new ≡ sets buf.old 0 (encoded (headed party time i n)) }
{
    let header = Segment {
        time,
        mode: wire::instances::mode(party, i),
        protocol: wire::instances::protocol(party.bundle, i),
        len: n as u16,
    };
    wire::segment::write(buf, header);
}

// Makes the next segment at the front of the lent buffer: 23, 20, notice 4, 18, and else the smaller of S and the bytes
// waiting of whoever is chosen. The caller gives the time.
pub fn next_segment(c: Connection, store: &[u8], time: u32, buf: &mut [u8]) -> Made
    ensures { told result buf.new ≡ next_of c store.now time buf.old }
{
    if !sends(&c, store.len()) {
        return refused(c, 23);
    }
    if !is_open(c.gate) {
        return refused(c, 20);
    }
    let party = c.settings.party;
    let many = count(party.bundle);
    let turn = c.sending.turn;
    let mut waiting = c.sending.waiting;
    let Some(i) = choose(many, word(waiting, many), turn as usize) else {
        return refused(c, 4);
    };
    let n = (c.settings.limit as usize).min(waiting[i] as usize);
    let len = HEADER + n;
    if buf.len() < len {
        return refused(c, 18);
    }
    put_header(buf, party, time, i, n);
    let mut starts = c.sending.starts;
    read(buf, HEADER, store, &c.settings.send, i, starts[i], n);
    leave(&c.settings.send, &mut starts, &mut waiting, i, n as u64);
    Made {
        number: 0,
        len,
        connection: Connection {
            sending: Sending {
                starts,
                waiting,
                turn: turn_after(many, i, turn),
            },
            ..c
        },
    }
}
