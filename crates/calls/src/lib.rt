// A script's line as a call: which call of a table it is, and what its words say, as docs/REPLAY.md fixes it.
//
// A table has a row for each call: its name, the kinds of its words, and what the caller knows it by. What the words say is
// put into a row of numbers, where each kind has so many places. So the places of a call's numbers follow from its kinds.
#![tactic(auto)]

use script::{Word, numbers, runs};

// How many places there are for what the words of a line say.
// Kept: a row of numbers by place, since nothing is allocated, and a list of a line lies in the row as a slice.
pub const WORDS: usize = 24;

// No lent buffer is longer, and no store.
pub const LENT: usize = 131080;

pub const STORE: usize = 1179648;

// What a word says.
#[derive(Clone, Copy, PartialEq, Eq)]
pub enum Kind {
    // A number.
    Number,
    // A time, below 2^32.
    Time,
    // The length of a lent buffer.
    Length,
    // How many bytes of a store are lent.
    Lent,
    // A side: 0 for `dialler`, 1 for `accepter`.
    Side,
    // 1 for `indefinite`; 0 where the line ends before it. Only as the last kind.
    Indefinite,
    // A run of bytes: where in the line its bytes are, and how many.
    Run,
    // A list of at most four numbers: how many, and which.
    Numbers,
    // A list of at most three runs: how many, and for each the same as of a run.
    Runs,
    // Numbers up to the end of the line, each a word: how many, and which. Only as the last kind.
    Rest,
}

impl Kind {
    // How many places the kind has.
    fn width(self) -> usize {
        match self {
            Kind::Run => 2,
            Kind::Numbers => 5,
            Kind::Runs => 7,
            _ => 1,
        }
    }

    // The largest number of the kind.
    fn most(self) -> u64 {
        match self {
            Kind::Time => 4294967295,
            Kind::Length => LENT as u64,
            Kind::Lent => STORE as u64,
            _ => u64::MAX,
        }
    }

    // What the kind takes behind a word: the next one, or all that are left.
    fn behind(self, line: &[u8], w: Word) -> Word {
        let next = w.next(line);
        match self {
            Kind::Rest => Word {
                from: next.from,
                to: line.len(),
            },
            _ => next,
        }
    }

    // Puts what a word says at the front of some places, if the word is of the kind.
    fn put(self, line: &mut [u8], w: Word, places: &mut [u64]) -> Option<()> {
        match self {
            Kind::Numbers => list(line, w, b',', Kind::Number, 4, places),
            Kind::Runs => list(line, w, b',', Kind::Run, 3, places),
            Kind::Rest => list(line, w, b' ', Kind::Number, WORDS, places),
            _ => self.piece(line, w, places),
        }
    }

    // The same of a word that is no list.
    fn piece(self, line: &mut [u8], w: Word, places: &mut [u64]) -> Option<()> {
        match self {
            Kind::Run => {
                let n = runs::of(line, w)?;
                set(places, 0, w.from as u64);
                set(places, 1, n as u64);
            }
            _ => set(places, 0, self.value(line, w)?),
        }
        Some(())
    }

    // A number of the kind, or what is told by one.
    fn value(self, line: &[u8], w: Word) -> Option<u64> {
        match self {
            Kind::Side => side(line, w),
            Kind::Indefinite => w.is(line, b"indefinite").then_some(1),
            _ => numbers::of(line, w).filter(|n| *n <= self.most()),
        }
    }
}

fn side(line: &[u8], w: Word) -> Option<u64> {
    match w.text(line) {
        b"dialler" => Some(0),
        b"accepter" => Some(1),
        _ => None,
    }
}

// A call of a table.
#[derive(Clone, Copy)]
pub struct Row<'a, C> {
    pub name: &'a [u8],
    pub kinds: &'a [Kind],
    pub call: C,
}

// Which call of a table a line is, exactly, with what its words say.
pub fn said<C: Copy>(table: &[Row<'_, C>], line: &mut [u8], words: &mut [u64; WORDS]) -> Option<C> {
    let name = Word::first(line);
    let row = table.iter().find(|row| row.name == name.text(line))?;
    all(line, name, row.kinds, words)?;
    Some(row.call)
}

// Puts what the words behind one say at their places, if they are of these kinds, and the line's last.
fn all(line: &mut [u8], name: Word, kinds: &[Kind], words: &mut [u64]) -> Option<()> {
    let mut last = name;
    let mut at: usize = 0;
    for kind in kinds {
        if *kind == Kind::Indefinite && last.last(line) {
            break;
        }
        last = kind.behind(line, last);
        kind.put(line, last, behind(words, at))?;
        at = at.saturating_add(kind.width());
    }
    last.last(line).then_some(())
}

// A list of at most so many of a kind, parted by a byte; the empty one is a stroke.
fn list(
    line: &mut [u8],
    w: Word,
    by: u8,
    kind: Kind,
    most: usize,
    places: &mut [u64],
) -> Option<()> {
    if w.is(line, b"-") {
        return Some(());
    }
    let mut element = part(line, w.from, w, by);
    let mut at: usize = 1;
    for count in 1..=most {
        kind.piece(line, element, behind(places, at))?;
        if w.to <= element.to {
            set(places, 0, count as u64);
            return Some(());
        }
        element = part(line, element.to.saturating_add(1), w, by);
        at = at.saturating_add(kind.width());
    }
    None
}

// The element of a list from a place on: up to what parts it from the next, or the end of the list.
fn part(line: &[u8], from: usize, list: Word, by: u8) -> Word {
    let element = Word::part(line, from, by);
    Word {
        from: element.from,
        to: element.to.min(list.to),
    }
}

// The places from one on.
fn behind(places: &mut [u64], at: usize) -> &mut [u64] {
    let from = at.min(places.len());
    &mut places[from..]
}

// Puts a number at a place, where there is one.
fn set(places: &mut [u64], at: usize, n: u64) {
    if let Some(place) = places.get_mut(at) {
        *place = n;
    }
}

// The number at a place; 0 where there is none.
pub fn at(words: &[u64], i: usize) -> u64 {
    words.get(i).copied().unwrap_or(0)
}

// The bytes of a run that a line says, by the place of its numbers.
pub fn bytes<'a>(line: &'a [u8], words: &[u64], i: usize) -> &'a [u8] {
    let from = at(words, i);
    let n = at(words, i.saturating_add(1));
    Word::within(line, from as usize, n as usize).text(line)
}

// The numbers of a list that a line says, likewise.
pub fn listed(words: &[u64], i: usize) -> &[u64] {
    let Some((n, rest)) = words.get(i..).and_then(|list| list.split_first()) else {
        return &[];
    };
    rest.get(..*n as usize).unwrap_or(&[])
}
