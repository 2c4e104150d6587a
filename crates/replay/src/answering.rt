// The line that answers each call of a script, as docs/REPLAY.md fixes it: a name, numbers, and then lists or runs.
use connection::{Closing, Gate};
use hearing::Shown;
use looking::Place;
use messages::{MOST_PLACES, Message};
use output::{WriteFailed, Writer};
use std::io::Stdout;
use telling::Report;

// How much of a line is written at once.
const OUT: usize = 4096;

// Prints a line: what `write` puts in it, and its end.
fn line<F: FnOnce(&mut Writer<'_>) -> Result<(), WriteFailed>>(
    stdout: Stdout,
    write: F,
) -> Result<(), WriteFailed>
    requires { F.IsAlwaysCallable write }
{
    let mut space = [0u8; OUT];
    let mut out = Writer::new(stdout, &mut space);
    write(&mut out)?;
    out.end()
}

// A line of a name and numbers.
fn numbers(stdout: Stdout, name: &[u8], numbers: &[u64]) -> Result<(), WriteFailed> {
    line(stdout, |out| {
        out.words(name)?;
        out.numbers(numbers)
    })
}

// The name of a call alone, with its number, and with its number and a count.
pub fn name(stdout: Stdout, name: &[u8]) -> Result<(), WriteFailed> {
    numbers(stdout, name, &[])
}

pub fn number(stdout: Stdout, name: &[u8], n: u64) -> Result<(), WriteFailed> {
    numbers(stdout, name, &[n])
}

pub fn counted(stdout: Stdout, name: &[u8], n: u64, count: usize) -> Result<(), WriteFailed> {
    numbers(stdout, name, &[n, count as u64])
}

// What a line that is no call is answered: its number, counted from 1.
pub fn bad(stdout: Stdout, line: u64) -> Result<(), WriteFailed> {
    numbers(stdout, b"bad line", &[line])
}

// A number and a count, with the lent buffer.
pub fn filled(
    stdout: Stdout,
    name: &[u8],
    n: u64,
    count: usize,
    buf: &[u8],
) -> Result<(), WriteFailed> {
    line(stdout, |out| {
        out.words(name)?;
        out.numbers(&[n, count as u64])?;
        out.run(buf)
    })
}

// What a look is answered: what it shows, where the message is, its bytes, and scratch.
pub fn looked(
    stdout: Stdout,
    s: Shown,
    place: Place,
    store: &[u8],
    scratch: &[u8],
) -> Result<(), WriteFailed> {
    line(stdout, |out| {
        shown(out, b"look", s)?;
        let at = match place {
            Place::Store(at) => {
                out.words(b" store")?;
                at
            }
            Place::Scratch => {
                out.words(b" scratch")?;
                0
            }
            Place::Nowhere => {
                out.words(b" none")?;
                0
            }
        };
        out.number(at as u64)?;
        out.run(looking::part(store, scratch, place, s.len))?;
        out.run(scratch)
    })
}

// What a drop is answered.
pub fn dropped(stdout: Stdout, s: Shown) -> Result<(), WriteFailed> {
    line(stdout, |out| shown(out, b"drop", s))
}

// What both say of a message: the number, its kind, its length, the offset, and its numbers and places.
fn shown(out: &mut Writer, name: &[u8], s: Shown) -> Result<(), WriteFailed> {
    let m = s.message;
    out.words(name)?;
    out.numbers(&[s.number, m.kind, s.len as u64, s.offset as u64])?;
    listed(out, &m.numbers, m.count)?;
    let places = m.places.map(|p| p as u64);
    listed(out, &places, 2 * m.parts.min(MOST_PLACES))
}

// The first n of some numbers, of which there are so many.
fn listed(out: &mut Writer, numbers: &[u64], n: usize) -> Result<(), WriteFailed> {
    match numbers.get(..n) {
        Some(first) => out.list(first),
        None => Ok(()),
    }
}

// What status tells, with so many counts.
pub fn status(stdout: Stdout, r: Report, n: usize) -> Result<(), WriteFailed> {
    let [closed, number, instance] = closing(r.gate);
    line(stdout, |out| {
        out.words(b"status")?;
        out.numbers(&[r.number, r.ready.word, r.ready.count, r.ready.lowest])?;
        out.numbers(&[closed, number, instance])?;
        listed(out, &r.held, n)?;
        listed(out, &r.waiting, n)
    })
}

// Whether closed, the number and the instance.
fn closing(gate: Gate) -> [u64; 3] {
    match gate {
        Gate::Open => [0, 0, 0],
        Gate::Closed(Closing::Bare(n)) => [1, n, 255],
        Gate::Closed(Closing::Of(n, i)) => [1, n, i],
    }
}

// The lent parts of both stores.
pub fn stores(stdout: Stdout, receive: &[u8], send: &[u8]) -> Result<(), WriteFailed> {
    line(stdout, |out| {
        out.words(b"stores")?;
        out.run(receive)?;
        out.run(send)
    })
}
