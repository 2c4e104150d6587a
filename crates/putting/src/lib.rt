// Put: a message of ours is queued behind what waits of its instance, if it is one that we may send now.
//
// It is judged by the same reader and the same rows as what is heard; `judging::said` has the order of its refusals. Then
// comes the room. One equation says the answer, the whole next record and every byte of the send store, on every input.
#![tactic(auto)]

ghost use Rattle.std.specs.Prelude.{◌≡◌, ◌&&◌, eqb, ltb};
ghost use Rattle.wire.specs.Instances.{handshake};
ghost use Rattle.range.specs.Besides.Ranges.{InSend};
ghost use Rattle.putting.specs.Putting.{told, refused, queue, put_of};

use connection::Connection;
use connection::areas::write;
use judging::Judged;
use range::{fits, sends};
use wire::instances::{HANDSHAKE, count};

// The number, and the record.
// Kept: the number in front, which README promises of every answer (`put_of`).
#[derive(Clone, Copy)]
pub struct Queued {
    pub number: u64,
    pub connection: Connection,
}

// A refusal changes nothing.
fn refused(c: Connection, number: u64) -> Queued
    ensures { result ≡ refused c number }
{
    Queued {
        number,
        connection: c,
    }
}

// Whether n bytes are a Handshake message above S.
fn too_long(c: &Connection, i: usize, n: u64) -> bool
    ensures { result ≡ (eqb i handshake && ltb c.now.settings.limit n) }
{
    i == HANDSHAKE && c.settings.limit < n
}

// Queues a message of instance i, of which this was judged: 24, a Handshake message above S, 22, one that its area has no
// room for behind what waits, and else it is queued.
#[tactic(auto, using(wire::proofs::InstanceLaws::at_most))]
fn queue(mut c: Connection, store: &mut [u8], i: usize, message: &[u8], j: Judged) -> Queued
    requires { InSend c store.old i }
    ensures { told result store.new ≡ queue c store.old i message.now j }
{
    let n = message.len() as u64;
    if too_long(&c, i, n) {
        return refused(c, 24);
    }
    let waiting = c.sending.waiting[i];
    if !fits(waiting, n, c.settings.send[i]) {
        return refused(c, 22);
    }
    write(
        store,
        &c.settings.send,
        i,
        c.sending.starts[i] + waiting,
        message,
        0,
        message.len(),
    );
    c.sending.waiting[i] = waiting + n;
    c.talk.states[i] = j.next;
    c.talk.accepted = judging::marks(c.talk.accepted, i, j.message.kind);
    Queued {
        number: 0,
        connection: c,
    }
}

// Puts a message of an instance: 23, 10, what is said up to 16, and else what `queue` has.
pub fn put(c: Connection, store: &mut [u8], instance: u64, message: &[u8]) -> Queued
    ensures { told result store.new ≡ put_of c store.old instance message.now }
{
    if !sends(&c, store.len()) {
        return refused(c, 23);
    }
    if count(c.settings.party.bundle) as u64 <= instance {
        return refused(c, 10);
    }
    let i = instance as usize;
    match judging::said(&c, i, message) {
        Ok(j) => queue(c, store, i, message, j),
        Err(outcome) => refused(c, outcome.number()),
    }
}
