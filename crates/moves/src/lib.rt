// What one head does to a walk over a CBOR data item, in bytes that may lie in a ring. A walk is in a level, an open
// container of which some items are still wanted, within others: a head that is there takes the walk to another place,
// and makes its level another or opens one within it; or the bytes are bad there, or end before the head does. Each
// such move is right whatever bytes come after: what was wanted at the old place is wanted at the new one, by the rules
// of the crate `item`.
#![tactic(auto)]

ghost use Rattle.std.specs.Prelude.{◌≡◌, ◌+◌, ◌-◌, ◌^◌, ◌≤◌, ◌<◌, length, get_or};
ghost use Rattle.head.specs.Initial.{initial};
ghost use Rattle.head.specs.declared.Initial.TheVariants.{Short, Long, Simple};
ghost use Rattle.ring.specs.Inside.{seen};
ghost use Rattle.moves.specs.Inside.Levels.{frame_of, Good};
ghost use Rattle.moves.specs.Inside.Frames.{breakable, room_for, chunk_of, may_begin};
ghost use Rattle.moves.specs.Inside.Moves.{Moves, Leaves, Strings, Follows, Doubles, Answers, Broken, Endless, Opened};

use head::read::number_at;
use head::{Initial, Major, initial_of};
use item::NESTING;
use ring::view::View;

// The kinds of levels, by what a level still wants: count items; count and 2^64 items; the elements of an array up to a
// break; the pairs of a map up to a break, where an odd count is at a value; chunks of bytes, and of text. So one less of
// the count is what is left after an item of any of the first four.
// Kept: numbers, and no enum: a level is of items where its kind is below BYTES, and wants one where kind and count are not both 0, so contracts compare and add them.
pub const ITEMS: u8 = 0;

const MORE_ITEMS: u8 = 1;

pub const ELEMENTS: u8 = 2;

pub const PAIRS: u8 = 3;

const BYTES: u8 = 4;

const TEXT: u8 = 5;

// 2^63: so many pairs are 2^64 items. The count of a level that goes up to a break begins with it, since it is even and
// no such level ends by its count.
pub const HALF: u64 = 9223372036854775808;

// A level: its kind, and its count.
#[derive(Clone, Copy)]
pub struct Level {
    pub kind: u8,
    pub count: u64,
}

// What a head does: from a place on the level is another; or a level is open within it; the bytes of a string go on
// after all that are there; a byte is bad; the head is cut off.
// Kept: five moves in one enum, for the walk matches them in one place, and a fault or a lack ends it as a skip does.
#[derive(Clone, Copy)]
pub enum Move {
    Stay(usize, Level),
    Down(usize, Level, Level),
    Skip(u64, Level),
    Fault(usize),
    Lack,
}

impl Level {
    // A break may end the level here.
    pub fn breaks(self) -> bool
        ensures { result ≡ breakable (frame_of self.kind self.count) }
    {
        if self.kind == PAIRS {
            return self.count % 2 == 0;
        }
        ELEMENTS <= self.kind
    }
}

// A level that wants something, within so many others.
#[derive(Clone, Copy)]
pub struct Wanting {
    pub level: Level,
    pub depth: usize,
    ghost good: { Good level.kind level.count depth },
    ghost wants: { 0 < level.kind + level.count },
}

impl Wanting {
    // What is left of the level once an item of it has begun.
    fn left(self) -> Level
        ensures { Leaves self.level.kind self.level.count result }
    {
        let Level { kind, count } = self.level;
        if 0 < count {
            return Level {
                kind,
                count: count - 1,
            };
        }
        if kind == MORE_ITEMS {
            return Level {
                kind: ITEMS,
                count: u64::MAX,
            };
        }
        if kind < BYTES {
            return Level {
                kind,
                count: u64::MAX,
            };
        }
        Level { kind, count: 0 }
    }

    // An item of a major type may begin here.
    fn may_begin(self, m: Major) -> bool
        ensures { result ≡ may_begin self.level.kind self.depth m }
    {
        if self.level.kind < BYTES {
            return room_for(m, self.depth);
        }
        chunk_of(m, self.level.kind)
    }
}

// Within the nesting there is room for an item.
fn room_for(m: Major, depth: usize) -> bool
    ensures { result ≡ room_for m depth }
{
    match m {
        Major::Number | Major::Bytes | Major::Text => true,
        Major::Array | Major::Map | Major::Tag => depth < NESTING,
    }
}

// A chunk is a string of the same type.
fn chunk_of(m: Major, kind: u8) -> bool
    ensures { result ≡ chunk_of m kind }
{
    match m {
        Major::Bytes => kind == BYTES,
        Major::Text => kind != BYTES,
        Major::Number | Major::Array | Major::Map | Major::Tag => false,
    }
}

// A string's v bytes, from the place p of n on.
fn string(n: usize, p: usize, v: u64, left: Level) -> Move
    requires { p ≤ n }
    ensures { Strings n p v left result }
{
    let there = (n - p) as u64;
    if v <= there {
        return Move::Stay(p + (v as usize), left);
    }
    Move::Skip(v - there, left)
}

// The level of v pairs: in 64 bits, since 2^63 pairs and more are of a kind of their own.
fn pairs(v: u64) -> Level
    ensures { Doubles v result }
{
    if v < HALF {
        return Level {
            kind: ITEMS,
            count: v * 2,
        };
    }
    Level {
        kind: MORE_ITEMS,
        count: (v - HALF) * 2,
    }
}

// What follows a head whose argument is v, from the place p of n on.
fn follows(n: usize, p: usize, m: Major, v: u64, left: Level) -> Move
    requires { p ≤ n }
    ensures { Follows n p m v left result }
{
    match m {
        Major::Number => Move::Stay(p, left),
        Major::Bytes | Major::Text => string(n, p, v, left),
        Major::Array => Move::Down(
            p,
            left,
            Level {
                kind: ITEMS,
                count: v,
            },
        ),
        Major::Map => Move::Down(p, left, pairs(v)),
        Major::Tag => Move::Down(
            p,
            left,
            Level {
                kind: ITEMS,
                count: 1,
            },
        ),
    }
}

// An argument in the initial byte.
fn short(n: usize, at: usize, w: Wanting, m: Major, v: u64) -> Move
    requires { at < n }
    ensures { Answers n at w.level.kind w.level.count w.depth (Short m v) result }
{
    if w.may_begin(m) {
        return follows(n, at + 1, m, v, w.left());
    }
    Move::Fault(at)
}

// An argument in the k + 1 bytes that follow: the head is bad before they come, if it is.
fn long(v: View<'_>, at: usize, w: Wanting, m: Major, k: usize) -> Move
    requires in_bounds { (at < v.len) × (k ≤ 7) }
    requires at_value { initial (get_or (seen v) at 0) ≡ Long m k }
    ensures { Moves (seen v.entry) at w.level.kind w.level.count w.depth result }
{
    if w.may_begin(m) {
        if v.len - (at + 1) <= k {
            return Move::Lack;
        }
        let argument = number_at(v, at + 1, k + 1);
        return follows(v.len, at + 1 + (k + 1), m, argument, w.left());
    }
    Move::Fault(at)
}

// A level that goes up to a break.
fn opened(at: usize, left: Level, m: Major) -> Move
    requires { at < 2 ^ 64 - 1 }
    ensures { Opened at left m result }
{
    match m {
        Major::Number | Major::Tag => Move::Fault(at),
        Major::Bytes => Move::Down(
            at + 1,
            left,
            Level {
                kind: BYTES,
                count: 0,
            },
        ),
        Major::Text => Move::Down(
            at + 1,
            left,
            Level {
                kind: TEXT,
                count: 0,
            },
        ),
        Major::Array => Move::Down(
            at + 1,
            left,
            Level {
                kind: ELEMENTS,
                count: HALF,
            },
        ),
        Major::Map => Move::Down(
            at + 1,
            left,
            Level {
                kind: PAIRS,
                count: HALF,
            },
        ),
    }
}

// No length, where items are wanted: a chunk has one.
fn indefinite(at: usize, w: Wanting, m: Major) -> Move
    requires { at < 2 ^ 64 - 1 }
    ensures { Endless at w.level.kind w.level.count w.depth m result }
{
    if BYTES <= w.level.kind {
        return Move::Fault(at);
    }
    if room_for(m, w.depth) {
        return opened(at, w.left(), m);
    }
    Move::Fault(at)
}

// A simple value in a byte of its own.
fn simple(v: View<'_>, at: usize, w: Wanting) -> Move
    requires in_bounds { at < v.len }
    requires at_value { initial (get_or (seen v) at 0) ≡ Simple }
    ensures { Moves (seen v.entry) at w.level.kind w.level.count w.depth result }
{
    if BYTES <= w.level.kind {
        return Move::Fault(at);
    }
    if v.len == at + 1 {
        return Move::Lack;
    }
    if v.byte(at + 1) < 32 {
        return Move::Fault(at + 1);
    }
    Move::Stay(at + 2, w.left())
}

// A break: the level wants nothing any more.
fn broken(at: usize, level: Level) -> Move
    requires { at < 2 ^ 64 - 1 }
    ensures { Broken at level.kind level.count result }
{
    if level.breaks() {
        return Move::Stay(
            at + 1,
            Level {
                kind: ITEMS,
                count: 0,
            },
        );
    }
    Move::Fault(at)
}

// Any head, at a level that wants something.
pub fn any(v: View<'_>, at: usize, w: Wanting) -> Move
    requires { at ≤ v.len }
    ensures { Moves (seen v.entry) at w.level.kind w.level.count w.depth result }
{
    if at == v.len {
        return Move::Lack;
    }
    match initial_of(v.byte(at)) {
        Initial::Short(m, argument) => short(v.len, at, w, m, argument),
        Initial::Long(m, k) => long(v, at, w, m, k),
        Initial::Indefinite(m) => indefinite(at, w, m),
        Initial::Simple => simple(v, at, w),
        Initial::Break => broken(at, w.level),
        Initial::Reserved => Move::Fault(at),
    }
}
