// The line of a message that is built, and read back.
use super::{OUT, bad, spoken};
use build::Built;
use calls::WORDS;
use output::{WriteFailed, Writer};
use std::io::Stdout;

// What a lent buffer is filled with.
const FILL: u8 = 0xee;

// No lent buffer is longer.
const ROOM: usize = 32;

// build B,I KIND,RUNS,LEN NUMS FIRST,SECOND, and the same with `indefinite` behind it
pub fn build(stdout: Stdout, line: &[u8], words: &[u64; WORDS]) -> Result<(), WriteFailed> {
    if !fitting(words) {
        return bad(stdout);
    }
    let mut room = [FILL; ROOM];
    let buf = &mut room[..ROOM.min(words[8] as usize)];
    let m = made(line, words, buf);
    let mut space = [0u8; OUT];
    let mut out = Writer::new(stdout, &mut space);
    out.decimal(words[2])?;
    out.number(words[6])?;
    out.byte(b':')?;
    out.number(m.number)?;
    answer(&mut out, words[1], words[2], m, buf)?;
    out.end()
}

// Whether the lists have as many numbers and runs, and there is room for the buffer.
fn fitting(words: &[u64; WORDS]) -> bool {
    words[0] == 2 && words[5] == 3 && words[15] == 2 && words[8] <= ROOM as u64
}

// Of numbers, and of runs that are bytes of the line.
fn made(line: &[u8], words: &[u64; WORDS], buf: &mut [u8]) -> Built {
    build::build(
        words[1],
        words[2],
        words[6],
        words[22] == 1,
        calls::listed(words, 10),
        words[7],
        calls::bytes(line, words, 16),
        calls::bytes(line, words, 18),
        buf,
    )
}

// The bytes of the message, and what they are read as. What is behind it, or the whole buffer after a refusal, must be as
// it was.
fn answer(out: &mut Writer, bundle: u64, i: u64, m: Built, buf: &[u8]) -> Result<(), WriteFailed> {
    if !buf.iter().skip(m.len).all(|b| *b == FILL) {
        return out.words(b" changed");
    }
    if m.number != 0 {
        return Ok(());
    }
    let Some(message) = buf.get(..m.len) else {
        return out.words(b" too long");
    };
    out.byte(b' ')?;
    out.hex(message)?;
    out.words(b": ")?;
    spoken(out, bundle, i, message, 0)
}
