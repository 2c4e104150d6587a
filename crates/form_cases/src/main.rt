// The forms of document 01, K1 and K2, each read, built, and broken in each way. The cases are the lines of the script on standard
// input, in the words of the crate `script`; a line that begins with `# ` is a remark. Each case has a line of answer.
//
// `read B,I,FROM RUN` reads a run, as a ring from a place on, as a message of the protocol that instance I of bundle B
// speaks. The answer is document 01's number, and then the kind, the numbers and the places, start and length, or what is wrong: the
// bytes are not one item, no array that an unsigned number opens, of no known kind, of another count, or in the field at
// this place of the array.
//
// `build B,I KIND,RUNS,LEN NUMS FIRST,SECOND` builds a message for instance I of bundle B, of its kind, numbers and runs,
// RUNS of which are counted, in a lent buffer of LEN bytes; with `indefinite` behind it, its list is to be of indefinite
// length. The answer is the instance and the kind, the number that build answers and, where it is 0, the bytes, and what
// they are read as.
#![tactic(auto)]

mod built;

ghost use Rattle.std.specs.Prelude.{◌≤◌, length};

use calls::{Kind, Row, WORDS};
use input::Stop;
use messages::{Message, Unread};
use output::{WriteFailed, Writer};
use ring::view::View;
use rows::Protocol;
use script::Word;
use std::io::Stdout;

// No line of the script is longer.
const LINE: usize = 1024;

// Space for what is read.
const SPACE: usize = 4096;

// How much of an answer is written at once.
const OUT: usize = 256;

// The cases, and the kinds of their words.
#[derive(Clone, Copy)]
enum Case {
    Read,
    Build,
}

const CASES: [Row<'static, Case>; 2] = [
    Row {
        name: b"read",
        kinds: &[Kind::Numbers, Kind::Run],
        call: Case::Read,
    },
    Row {
        name: b"build",
        kinds: &[
            Kind::Numbers,
            Kind::Numbers,
            Kind::Numbers,
            Kind::Runs,
            Kind::Indefinite,
        ],
        call: Case::Build,
    },
];

fn main(rt: HostRuntime) {
    let mut space = [0; SPACE];
    let stdout = rt.stdout();
    match input::each_line(
        rt.stdin(),
        &mut space,
        LINE,
        |line, long| answer(stdout, line, long),
    ) {
        Ok(()) => {}
        Err(Stop::Unread) => {
            output::stop(rt.stderr(), b"form_cases: cannot read standard input\n")
        }
        Err(Stop::Unwritten) => output::stop(
            rt.stderr(),
            b"form_cases: cannot write to standard output\n",
        ),
    }
}

// A case, a remark, or what is neither.
fn answer(stdout: Stdout, line: &mut [u8], long: bool) -> Result<(), WriteFailed> {
    if long {
        return bad(stdout);
    }
    let mut words = [0; WORDS];
    match calls::said(&CASES, line, &mut words) {
        Some(Case::Read) => read(stdout, line, &words),
        Some(Case::Build) => built::build(stdout, line, &words),
        None => {
            if Word::first(line).is(line, b"#") {
                return Ok(());
            }
            bad(stdout)
        }
    }
}

// A line that is no case.
fn bad(stdout: Stdout) -> Result<(), WriteFailed> {
    output::say(stdout, b"bad line")
}

// read B,I,FROM RUN
fn read(stdout: Stdout, line: &[u8], words: &[u64; WORDS]) -> Result<(), WriteFailed> {
    if words[0] != 3 {
        return bad(stdout);
    }
    let mut space = [0u8; OUT];
    let mut out = Writer::new(stdout, &mut space);
    let bytes = calls::bytes(line, words, 5);
    spoken(&mut out, words[1], words[2], bytes, words[3])?;
    out.end()
}

// All bytes of a slice, as a ring from a place on, in the protocol that an instance of a bundle speaks.
fn spoken(
    out: &mut Writer,
    bundle: u64,
    i: u64,
    bytes: &[u8],
    from: u64,
) -> Result<(), WriteFailed> {
    if wire::instances::count(bundle) as u64 <= i {
        return out.words(b"bad line");
    }
    if (bytes.len() as u64) < from {
        return out.words(b"bad line");
    }
    let p = rows::spoken::protocol(bundle, i as usize);
    show(out, p, bytes, from as usize)
}

fn show(out: &mut Writer, p: Protocol, bytes: &[u8], from: usize) -> Result<(), WriteFailed>
    requires { from ≤ length bytes.now }
{
    let view = View {
        bytes,
        from,
        len: bytes.len(),
    };
    if cbor::measure(view) != Ok(bytes.len()) {
        return out.words(b"15 one");
    }
    match messages::read(p, view) {
        Ok(message) => print(out, message),
        Err(Unread::NotArray) => out.words(b"15 array"),
        Err(Unread::UnknownKind) => out.words(b"15 kind"),
        Err(Unread::WrongCount) => out.words(b"15 count"),
        Err(Unread::WrongField(i)) => {
            out.words(b"15 field")?;
            out.number(i)
        }
    }
}

// What a message says: its kind, its numbers, and the start and the length of each of its places.
fn print(out: &mut Writer, m: Message) -> Result<(), WriteFailed> {
    out.byte(b'0')?;
    out.number(m.kind)?;
    out.byte(b';')?;
    if let Some(numbers) = m.numbers.get(..m.count) {
        out.numbers(numbers)?;
    }
    out.byte(b';')?;
    let (places, _) = m.places.as_chunks::<2>();
    for [start, len] in places.iter().take(m.parts) {
        out.number(*start as u64)?;
        out.byte(b'+')?;
        out.decimal(*len as u64)?;
    }
    Ok(())
}
