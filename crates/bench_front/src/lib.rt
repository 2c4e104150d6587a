// What bench/front.c calls: the hot paths of a connection, each run many times, since a record does not cross to C.
//
// Nothing is promised of what comes back; bench/front.c holds it, and the lent memory, to what plain C comes to.
#![tactic(auto)]

ghost use Rattle.std.specs.Prelude.{◌<◌};
ghost use Rattle.wire.specs.Instances.{most};

use connection::{Connection, Sending, Settings, Talk};
use dropping::drop;
use feeding::feed;
use looking::{look, part};
use opening::open;
use putting::put;
use rows::Protocol;
use sending::{Made, next_segment};
use wire::instances::{HANDSHAKE, INSTANCES, Party, Side};

// Every capacity, and the largest payload limit.
const CAPACITY: u64 = 131072;

const LIMIT: u64 = 65535;

// Block-Fetch as initiator and as responder, its state Streaming; TxSubmission as initiator, its state Blocking; Keep-alive as
// initiator and as responder.
const FETCHES: usize = 3;

const SERVES: usize = 4;

const STREAMING: u64 = 2;

const REPLIES: usize = 5;

const BLOCKING: u64 = 2;

const ASKS: usize = 7;

const ANSWERS: usize = 8;

// An opened connection whose Handshake ended in Accept, whose Block-Fetch streams and which is asked for transaction ids; all else is in
// its first state.
fn talking(side: Side, limit: u64, receive: &[u8], send: &[u8]) -> Connection {
    let settings = Settings {
        party: Party { bundle: 0, side },
        limit,
        receive: [CAPACITY; INSTANCES],
        send: [CAPACITY; INSTANCES],
    };
    let mut states = [0; INSTANCES];
    states[HANDSHAKE] = rows::done(Protocol::Handshake);
    states[FETCHES] = STREAMING;
    states[SERVES] = STREAMING;
    states[REPLIES] = BLOCKING;
    let mut c = open(settings, receive, send).connection;
    c.talk = Talk {
        states,
        accepted: true,
    };
    c
}

// The input fed in runs of `cut` bytes. Of runs that are empty only one is fed.
fn fed(c: Connection, store: &mut [u8], input: &[u8], cut: usize) -> Connection {
    if cut == 0 {
        return if input.is_empty() {
            c
        } else {
            feed(c, store, b"").connection
        };
    }
    let mut last = c;
    for run in input.chunks(cut) {
        last = feed(last, store, run).connection;
    }
    last
}

// Feeds the input in runs of `cut` bytes, each time from open on. Hands back what is held of Block-Fetch.
#[unsafe(no_mangle)]
pub extern "C" fn front_feed(
    receive: &mut [u8],
    send: &[u8],
    input: &[u8],
    cut: usize,
    times: u64,
) -> u64 {
    let c = talking(Side::Dialler, LIMIT, receive, send);
    let mut last = c;
    for _ in 0..times {
        last = fed(c, receive, input, cut);
    }
    last.receiving.held[FETCHES]
}

// So many segments.
fn sent(c: Connection, store: &[u8], buf: &mut [u8], segments: u64) -> Connection {
    let mut last = c;
    for _ in 0..segments {
        last = next_segment(last, store, 1, buf).connection;
    }
    last
}

// So many segments of full queues, each time from their fill on: so many bytes wait of each of the first `busy` instances
// from 1 on. Hands back what still waits of instance 1.
#[unsafe(no_mangle)]
pub extern "C" fn front_next(
    receive: &[u8],
    send: &[u8],
    buf: &mut [u8],
    limit: u64,
    busy: u64,
    bytes: u64,
    segments: u64,
    times: u64,
) -> u64 {
    let mut waiting = [0; INSTANCES];
    for queue in waiting.iter_mut().skip(1).take(busy as usize) {
        *queue = bytes;
    }
    let mut c = talking(Side::Dialler, limit, receive, send);
    c.sending = Sending {
        waiting,
        ..c.sending
    };
    let mut last = c;
    for _ in 0..times {
        last = sent(c, send, buf, segments);
    }
    last.sending.waiting[1]
}

// Looks at the message that is held of Block-Fetch, n bytes from the place `start` on, so many times. Hands back how many
// bytes its part has.
#[unsafe(no_mangle)]
pub extern "C" fn front_look(
    receive: &[u8],
    send: &[u8],
    scratch: &mut [u8],
    start: u64,
    n: u64,
    times: u64,
) -> u64 {
    let mut c = talking(Side::Dialler, LIMIT, receive, send);
    c.receiving.starts[FETCHES] = start;
    c.receiving.held[FETCHES] = n;
    c.receiving.instance = 0;
    c.receiving.rest = 0;
    let mut last = 0;
    for _ in 0..times {
        last = shown(c, receive, scratch);
    }
    last
}

// How many bytes the part of Block-Fetch's message has.
fn shown(c: Connection, store: &[u8], scratch: &mut [u8]) -> u64 {
    let l = look(c, store, FETCHES as u64, scratch);
    part(store, scratch, l.place, l.shown.len).len() as u64
}

// Puts a message of an instance, each time from open on. What waits then.
fn put_again(receive: &[u8], send: &mut [u8], instance: usize, message: &[u8], times: u64) -> u64
    requires { instance < most }
{
    let c = talking(Side::Dialler, LIMIT, receive, send);
    let mut last = c;
    for _ in 0..times {
        last = put(c, send, instance as u64, message).connection;
    }
    last.sending.waiting[instance]
}

// Puts a block, each time from open on. Hands back what waits then.
#[unsafe(no_mangle)]
pub extern "C" fn front_put(receive: &[u8], send: &mut [u8], message: &[u8], times: u64) -> u64 {
    put_again(receive, send, SERVES, message, times)
}

// Puts transaction ids, each time from open on. Hands back what waits then.
#[unsafe(no_mangle)]
pub extern "C" fn front_reply(receive: &[u8], send: &mut [u8], message: &[u8], times: u64) -> u64 {
    put_again(receive, send, REPLIES, message, times)
}

// A message put, and its segment made.
fn spoken(
    c: Connection,
    store: &mut [u8],
    wire: &mut [u8],
    instance: usize,
    message: &[u8],
) -> Made {
    let queued = put(c, store, instance as u64, message).connection;
    next_segment(queued, store, 1, wire)
}

// A segment of n bytes fed, and its message dropped: at once (0 looks), or after a look.
fn heard(
    c: Connection,
    store: &mut [u8],
    wire: &[u8],
    n: usize,
    instance: usize,
    scratch: &mut [u8],
    looks: u64,
) -> Connection {
    let instance = instance as u64;
    let end = n.min(wire.len());
    let fed = feed(c, store, &wire[..end]).connection;
    if 0 < looks {
        let looked = look(fed, store, instance, scratch).connection;
        return drop(looked, store, instance).connection;
    }
    drop(fed, store, instance).connection
}

// A Keep-alive message and its answer: each is put, sent, fed to the other end and dropped there, at once (0 looks) or after
// a look. Hands back where the next answer will begin in its area.
#[unsafe(no_mangle)]
pub extern "C" fn front_way(
    receive: &mut [u8],
    send: &mut [u8],
    far_receive: &mut [u8],
    far_send: &mut [u8],
    wire: &mut [u8],
    scratch: &mut [u8],
    ask: &[u8],
    answer: &[u8],
    looks: u64,
    times: u64,
) -> u64 {
    let mut near = talking(Side::Dialler, LIMIT, receive, send);
    let mut far = talking(Side::Accepter, LIMIT, far_receive, far_send);
    for _ in 0..times {
        let asked = spoken(near, send, wire, ASKS, ask);
        let c = heard(far, far_receive, wire, asked.len, ANSWERS, scratch, looks);
        let answered = spoken(c, far_send, wire, ANSWERS, answer);
        near = heard(
            asked.connection,
            receive,
            wire,
            answered.len,
            ASKS,
            scratch,
            looks,
        );
        far = answered.connection;
    }
    near.receiving.starts[ASKS]
}
