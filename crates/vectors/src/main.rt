// CBOR vectors, each measured: all examples of RFC 8949's appendices A and F, P7 to P10, what is easy to get wrong, and bytes
// that go bad at a place of every sort (K3). They are the lines on standard input, in hex; a line that begins with `# ` is a
// remark, and one with `: ` a title.
//
// A line for each: its bytes; the verdict, with the item's length or the bad byte's offset; for what is bad, whether the
// longest prefix that is incomplete agrees, whose length the offset is by definition, and for which every prefix is tried;
// how many proper prefixes are incomplete; and from how many of the 32 places of a ring on the verdict, with its number,
// is the same as that on the bytes in one piece.
//
// Appendix A has 81 examples, appendix F 94. Both lists are those of the RFC's text, as Debian's package doc-rfc-std
// 20230121-1 has it, complete and in its order: taken out of that text and compared, hex for hex. All of A are whole; of
// F, the 42 of too little data are incomplete, the 52 of a syntax error bad.
#![tactic(auto)]

ghost use Rattle.std.specs.Prelude.{◌<◌, ◌≤◌, length};

use input::Stop;
use item::{NotWhole, Verdict};
use output::{WriteFailed, Writer};
use ring::view::View;
use script::{Word, runs};
use std::io::Stdout;

// No vector is longer than the ring.
const ROOM: usize = 32;

// No line that is read or printed is longer.
const LINE: usize = 128;

// Space for what is read.
const SPACE: usize = 4096;

fn main(rt: HostRuntime) {
    let mut space = [0; SPACE];
    let stdout = rt.stdout();
    match input::each_line(rt.stdin(), &mut space, LINE, |line, long| {
        answer(stdout, line, long)
    }) {
        Ok(()) => {}
        Err(Stop::Unread) => output::stop(rt.stderr(), b"vectors: cannot read standard input\n"),
        Err(Stop::Unwritten) => {
            output::stop(rt.stderr(), b"vectors: cannot write to standard output\n")
        }
    }
}

// A title, a remark, or a vector in hex, which is made bytes.
fn answer(stdout: Stdout, line: &mut [u8], long: bool) -> Result<(), WriteFailed> {
    if long {
        return output::say(stdout, b"too long");
    }
    let first = Word::first(line);
    if first.is(line, b":") {
        return output::say(stdout, line.get(2..).unwrap_or(b""));
    }
    if first.is(line, b"#") {
        return Ok(());
    }
    let Some(n) = runs::read(line) else {
        return output::say(stdout, b"no vector");
    };
    let bytes = &line[..n.min(line.len())];
    if ROOM < bytes.len() {
        return output::say(stdout, b"too long");
    }
    show(stdout, bytes)
}

// The line of one vector.
fn show(stdout: Stdout, bytes: &[u8]) -> Result<(), WriteFailed>
    requires { length bytes.now ≤ 32 }
{
    let v = cbor::measure_slice(bytes);
    let incomplete = |k: &usize| is_incomplete(bytes, *k);
    let prefixes = (0..bytes.len()).filter(incomplete).count();
    let longest = (0..bytes.len()).rfind(incomplete).unwrap_or(0);
    let rings = (0..ROOM).filter(|from| around(bytes, *from) == v).count();
    let mut space = [0u8; LINE];
    let mut out = Writer::new(stdout, &mut space);
    out.hex(bytes)?;
    verdict(&mut out, v, longest)?;
    count(&mut out, b", prefixes", prefixes)?;
    count(&mut out, b", rings", rings)?;
    out.end()
}

// Whether the first k bytes are incomplete.
fn is_incomplete(bytes: &[u8], k: usize) -> bool {
    match bytes.get(..k) {
        Some(prefix) => cbor::measure_slice(prefix) == Err(NotWhole::Incomplete),
        None => false,
    }
}

// The verdict on the bytes laid into a ring from a place on.
fn around(bytes: &[u8], from: usize) -> Verdict
    requires { (length bytes.now ≤ 32) × (from < 32) }
{
    let mut store = [0u8; ROOM];
    ring::write(&mut store, 0, ROOM, from, bytes, 0, bytes.len());
    cbor::measure(View {
        bytes: &store,
        from,
        len: bytes.len(),
    })
}

// A verdict in words, with its number; of a bad byte's offset also whether it is what it is defined to be.
fn verdict(out: &mut Writer, v: Verdict, longest: usize) -> Result<(), WriteFailed> {
    match v {
        Ok(n) => count(out, b" whole", n),
        Err(NotWhole::Bad(at)) => {
            count(out, b" bad at", at)?;
            if at == longest {
                out.words(b", longest prefix agrees")
            } else {
                out.words(b", longest prefix differs")
            }
        }
        Err(NotWhole::Incomplete) => out.words(b" incomplete"),
    }
}

// Words and a number.
fn count(out: &mut Writer, words: &[u8], n: usize) -> Result<(), WriteFailed> {
    out.words(words)?;
    out.number(n as u64)
}
