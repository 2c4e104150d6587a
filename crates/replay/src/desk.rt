// Each line of a script: its words are read, its call is made, and its answer is printed. A line that is no call changes nothing.
//
// A call is a row of the table below, which says the kinds of its words, and so the places of what they say; and an arm of
// `make`.
ghost use Rattle.std.specs.Prelude.{◌≤◌};
ghost use Rattle.wire.specs.Instances.{most};

use crate::{FILL, answering};
use calls::{Kind, LENT, Row, STORE, WORDS};
use connection::{Connection, Settings};
use output::WriteFailed;
use std::io::Stdout;
use wire::instances::{INSTANCES, Party, Side, count, known};

// The calls.
#[derive(Clone, Copy, PartialEq, Eq)]
enum Call {
    Bundle,
    Open,
    Lend,
    Feed,
    Look,
    Drop,
    Build,
    Put,
    Next,
    Status,
    Stores,
}

// Their names, and the kinds of their words.
const CALLS: [Row<'static, Call>; 11] = [
    Row {
        name: b"bundle",
        kinds: &[Kind::Number],
        call: Call::Bundle,
    },
    Row {
        name: b"open",
        kinds: &[Kind::Side, Kind::Number, Kind::Rest],
        call: Call::Open,
    },
    Row {
        name: b"lend",
        kinds: &[Kind::Lent, Kind::Lent],
        call: Call::Lend,
    },
    Row {
        name: b"feed",
        kinds: &[Kind::Run],
        call: Call::Feed,
    },
    Row {
        name: b"look",
        kinds: &[Kind::Number, Kind::Length],
        call: Call::Look,
    },
    Row {
        name: b"drop",
        kinds: &[Kind::Number],
        call: Call::Drop,
    },
    Row {
        name: b"build",
        kinds: &[
            Kind::Number,
            Kind::Number,
            Kind::Numbers,
            Kind::Runs,
            Kind::Length,
            Kind::Indefinite,
        ],
        call: Call::Build,
    },
    Row {
        name: b"put",
        kinds: &[Kind::Number, Kind::Run],
        call: Call::Put,
    },
    Row {
        name: b"next",
        kinds: &[Kind::Time, Kind::Length],
        call: Call::Next,
    },
    Row {
        name: b"status",
        kinds: &[],
        call: Call::Status,
    },
    Row {
        name: b"stores",
        kinds: &[],
        call: Call::Stores,
    },
];

// How many capacities of each kind an `open` line has for an unknown bundle, and how many counts a `status` line has of a
// record out of range, whichever bundles there are.
const NINE: usize = 9;

// A store, and how many of its bytes are lent, from its front on: all where there are fewer.
#[derive(Drop)]
struct Lent<'a> {
    store: &'a mut [u8],
    count: usize,
}

impl Lent<'_> {
    // The bytes that are lent, to be read and to be written.
    fn bytes(&self) -> &[u8] {
        &self.store[..self.count.min(self.store.len())]
    }

    fn bytes_mut(&mut self) -> &mut [u8] {
        let count = self.count.min(self.store.len());
        &mut self.store[..count]
    }
}

// What goes from line to line: the stores, and how much of each is lent; the bundle; the record that the last call handed
// back; and how many lines were read.
#[derive(Drop)]
pub struct Desk<'a> {
    stdout: Stdout,
    receive: Lent<'a>,
    send: Lent<'a>,
    bundle: u64,
    connection: Connection,
    lines: u64,
}

impl Desk<'_> {
    // Before the first line: nothing lent, bundle 0, and the record that a refused open hands back.
    pub fn new<'a>(stdout: Stdout, receive: &'a mut [u8], send: &'a mut [u8]) -> Desk<'a> {
        let refused = opening::open(settings(0, &[0; WORDS]), b"", b"");
        Desk {
            stdout,
            receive: Lent {
                store: receive,
                count: 0,
            },
            send: Lent {
                store: send,
                count: 0,
            },
            bundle: 0,
            connection: refused.connection,
            lines: 0,
        }
    }

    // Makes the call that a line spells, and prints its answer. A line of nothing, or a remark, has none.
    pub fn line(&mut self, line: &mut [u8], long: bool) -> Result<(), WriteFailed> {
        self.lines = self.lines.wrapping_add(1);
        if !long && matches!(line, [] | [b'#', ..]) {
            return Ok(());
        }
        let mut words = [0; WORDS];
        match self.called(line, long, &mut words) {
            Some(call) => self.make(call, line, &words),
            None => answering::bad(self.stdout, self.lines),
        }
    }

    // Which call a line is, with what its words say. An `open` line with another number of capacities than the bundle's is
    // no call.
    fn called(&self, line: &mut [u8], long: bool, words: &mut [u64; WORDS]) -> Option<Call> {
        if long {
            return None;
        }
        let call = calls::said(&CALLS, line, words)?;
        if call == Call::Open && words[2] != 2 * each(self.bundle) as u64 {
            return None;
        }
        Some(call)
    }

    fn make(&mut self, call: Call, line: &[u8], words: &[u64; WORDS]) -> Result<(), WriteFailed> {
        match call {
            Call::Bundle => {
                self.bundle = words[0];
                answering::name(self.stdout, b"bundle")
            }
            Call::Open => self.open(words),
            Call::Lend => {
                self.receive.count = words[0] as usize;
                self.send.count = words[1] as usize;
                answering::name(self.stdout, b"lend")
            }
            Call::Feed => self.feed(calls::bytes(line, words, 0)),
            Call::Look => self.look(words[0], words[1] as usize),
            Call::Drop => self.drop(words[0]),
            Call::Build => self.build(line, words),
            Call::Put => self.put(words[0], calls::bytes(line, words, 1)),
            Call::Next => self.next((words[0] % 4294967296) as u32, words[1] as usize),
            Call::Status => self.status(),
            Call::Stores => {
                answering::stores(self.stdout, self.receive.bytes(), self.send.bytes())
            }
        }
    }

    // open SIDE S R.. W..
    fn open(&mut self, words: &[u64; WORDS]) -> Result<(), WriteFailed> {
        let settings = settings(self.bundle, words);
        self.receive.count = sum(self.bundle, settings.receive);
        self.send.count = sum(self.bundle, settings.send);
        let o = opening::open(settings, self.receive.bytes(), self.send.bytes());
        self.connection = o.connection;
        answering::number(self.stdout, b"open", o.number)
    }

    // feed RUN
    fn feed(&mut self, run: &[u8]) -> Result<(), WriteFailed> {
        let f = feeding::feed(self.connection, self.receive.bytes_mut(), run);
        self.connection = f.connection;
        answering::counted(self.stdout, b"feed", f.number, f.used)
    }

    // look I LEN
    fn look(&mut self, i: u64, len: usize) -> Result<(), WriteFailed> {
        let mut room = [FILL; LENT];
        let scratch = first(&mut room, len);
        let l = looking::look(self.connection, self.receive.bytes(), i, scratch);
        self.connection = l.connection;
        answering::looked(self.stdout, l.shown, l.place, self.receive.bytes(), scratch)
    }

    // drop I
    fn drop(&mut self, i: u64) -> Result<(), WriteFailed> {
        let d = dropping::drop(self.connection, self.receive.bytes(), i);
        self.connection = d.connection;
        answering::dropped(self.stdout, d.shown)
    }

    // build I KIND NUMS PARTS LEN, build I KIND NUMS PARTS LEN indefinite. Of three runs the last is counted, and not handed
    // over.
    fn build(&self, line: &[u8], words: &[u64; WORDS]) -> Result<(), WriteFailed> {
        let mut room = [FILL; LENT];
        let buf = first(&mut room, words[14] as usize);
        let b = build::build(
            self.bundle,
            words[0],
            words[1],
            words[15] == 1,
            calls::listed(words, 2),
            words[7],
            calls::bytes(line, words, 8),
            calls::bytes(line, words, 10),
            buf,
        );
        answering::filled(self.stdout, b"build", b.number, b.len, buf)
    }

    // put I RUN
    fn put(&mut self, i: u64, run: &[u8]) -> Result<(), WriteFailed> {
        let q = putting::put(self.connection, self.send.bytes_mut(), i, run);
        self.connection = q.connection;
        answering::number(self.stdout, b"put", q.number)
    }

    // next TIME LEN
    fn next(&mut self, time: u32, len: usize) -> Result<(), WriteFailed> {
        let mut room = [FILL; LENT];
        let buf = first(&mut room, len);
        let m = sending::next_segment(self.connection, self.send.bytes(), time, buf);
        self.connection = m.connection;
        answering::filled(self.stdout, b"next", m.number, m.len, buf)
    }

    // status, with as many counts as the record's bundle has instances
    fn status(&self) -> Result<(), WriteFailed> {
        let r = telling::status(self.connection);
        let n = if r.number == 0 {
            count(self.connection.settings.party.bundle)
        } else {
            NINE
        };
        answering::status(self.stdout, r, n)
    }
}

// The first n bytes of a buffer, and all where there are fewer.
fn first(buf: &mut [u8], n: usize) -> &mut [u8] {
    let n = n.min(buf.len());
    &mut buf[..n]
}

// How many receive capacities an `open` line has, and as many send capacities: one for each instance of the bundle.
fn each(bundle: u64) -> usize
    ensures { result ≤ most }
{
    if known(bundle) { count(bundle) } else { NINE }
}

// The settings that SIDE S R.. W.. say.
fn settings(bundle: u64, words: &[u64; WORDS]) -> Settings {
    let n = each(bundle);
    let side = if words[0] == 0 {
        Side::Dialler
    } else {
        Side::Accepter
    };
    Settings {
        party: Party { bundle, side },
        limit: words[1],
        receive: capacities(words, 3, n),
        send: capacities(words, 3 + n, n),
    }
}

// So many numbers from a place on, and 0 behind them.
fn capacities(words: &[u64; WORDS], from: usize, n: usize) -> [u64; INSTANCES] {
    let mut caps = [0; INSTANCES];
    for (cap, word) in caps.iter_mut().zip(words.iter().skip(from).take(n)) {
        *cap = *word;
    }
    caps
}

// What a bundle's capacities add up to, and the whole store where that is more.
fn sum(bundle: u64, caps: [u64; INSTANCES]) -> usize {
    let caps = caps.iter().take(count(bundle));
    caps.fold(0, |sum, cap| STORE.min(sum.saturating_add(*cap as usize)))
}
