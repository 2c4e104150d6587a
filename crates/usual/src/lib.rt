// The usual heads of CBOR data items, told quickly: a head at a place with eight more bytes after it in one piece, so that
// no byte of it is asked for twice and none may be missing. What is told of a head is one of the moves of the crate
// `moves`, at any level that has a count; a head that is not usual is left to that crate.
#![tactic(auto)]

ghost use Rattle.std.specs.Prelude.{ℕ, ◌≡◌, ◌+◌, ◌-◌, ◌^◌, ◌≤◌, ◌<◌, length};
ghost use Rattle.ring.specs.Inside.{seen};
ghost use Rattle.usual.specs.Inside.Pieces.{Spot, PieceAt};
ghost use Rattle.usual.specs.Inside.Usual.{following, small_of, Quickly, Usually, UsualString};

use head::{EIGHT_BYTES, FOUR_BYTES, INFOS, ONE_BYTE, RESERVED, TWO_BYTES};
use item::NESTING;
use moves::{ELEMENTS, PAIRS};
use ring::view::View;

// How many bytes follow an initial byte at most.
const LONGEST: usize = 8;

// Initial bytes: the first of strings, of arrays, of maps, of tags, and of simple values with floats; of the others, an
// array and a map up to a break, and a break.
const STRINGS: u8 = 64;

const ARRAYS: u8 = 128;

const MAPS: u8 = 160;

const TAGS: u8 = 192;

const SIMPLES: u8 = 224;

const OPEN_ARRAY: u8 = 159;

const OPEN_MAP: u8 = 191;

const BREAK: u8 = 255;

// What a usual head does: it is passed, up to a place; from a place on a level of so many items is open, or one of a
// kind that goes up to a break; it is a break. Of a head that is not usual nothing is told.
#[derive(Clone, Copy)]
pub enum Quick {
    Past(usize),
    Asks(usize, u64),
    Opens(usize, u8),
    Ends(usize),
}

// Where the bytes of the ring lie in one piece: what to add to a place and what to take from it, up to a place.
#[derive(Clone, Copy)]
pub struct Piece {
    pub plus: usize,
    pub minus: usize,
    pub lim: usize,
}

// How many bytes follow an initial byte, by its additional information.
fn following(i: u8) -> usize
    ensures { result ≡ following i }
{
    if i < ONE_BYTE {
        return 0;
    }
    match i {
        ONE_BYTE => 1,
        TWO_BYTES => 2,
        FOUR_BYTES => 4,
        EIGHT_BYTES => 8,
        _ => 0,
    }
}

// The argument in the additional information i, or in the byte x after the initial byte.
fn small(i: u8, x: u8) -> u64
    ensures { result ≡ small_of i x }
{
    u64::from(if i < ONE_BYTE { i } else { x })
}

// A string of less than 256 bytes; x is the byte after the initial byte.
fn short_string(n: usize, at: usize, i: u8, x: u8) -> Option<Quick>
    requires { at + 8 < n }
    ensures { UsualString n at i x result }
{
    if ONE_BYTE < i {
        return None;
    }
    let v = small(i, x);
    let p = at + 1 + following(i);
    if v <= (n - p) as u64 {
        return Some(Quick::Past(p + (v as usize)));
    }
    None
}

// An array or a map, of less than 24 or up to a break.
fn nested(b: u8, at: usize, depth: usize) -> Option<Quick>
    requires { (at + 8 < 2 ^ 64 - 1) × (128 ≤ b) × (b < 192) }
    ensures { Usually at depth b result }
{
    let i = b % INFOS;
    if NESTING <= depth {
        return None;
    }
    if i < ONE_BYTE {
        if b < MAPS {
            return Some(Quick::Asks(at + 1, u64::from(i)));
        }
        return Some(Quick::Asks(at + 1, u64::from(i) * 2));
    }
    if b == OPEN_ARRAY {
        return Some(Quick::Opens(at + 1, ELEMENTS));
    }
    if b == OPEN_MAP {
        return Some(Quick::Opens(at + 1, PAIRS));
    }
    None
}

// A tag, of whatever number.
fn tag(b: u8, at: usize, depth: usize) -> Option<Quick>
    requires { (at + 8 < 2 ^ 64 - 1) × (192 ≤ b) × (b < 224) }
    ensures { Usually at depth b result }
{
    let i = b % INFOS;
    if NESTING <= depth {
        return None;
    }
    if RESERVED <= i {
        return None;
    }
    Some(Quick::Asks(at + 1 + following(i), 1))
}

// A simple value without a byte of its own, or a float.
fn simple(b: u8, at: usize) -> Option<Quick>
    requires { (at + 8 < 2 ^ 64 - 1) × (224 ≤ b) × (b < 255) }
    ensures { (d : ℕ) → Usually at d b result }
{
    let i = b % INFOS;
    if i == ONE_BYTE {
        return None;
    }
    if RESERVED <= i {
        return None;
    }
    Some(Quick::Past(at + 1 + following(i)))
}

// A usual head at the place `at`, at a level of items, where nine bytes lie in one piece from the place p of the slice
// on.
pub fn usual(v: View<'_>, at: usize, p: usize, depth: usize) -> Option<Quick>
    requires { Spot (length v.bytes.now) v.from v.len at p }
    ensures { Quickly (seen v.entry) at depth result }
{
    let b = v.bytes[p];
    let i = b % INFOS;
    if b == BREAK {
        return Some(Quick::Ends(at + 1));
    }
    if b < STRINGS {
        if RESERVED <= i {
            return None;
        }
        return Some(Quick::Past(at + 1 + following(i)));
    }
    if b < ARRAYS {
        return short_string(v.len, at, i, v.bytes[p + 1]);
    }
    if b < TAGS {
        return nested(b, at, depth);
    }
    if b < SIMPLES {
        return tag(b, at, depth);
    }
    simple(b, at)
}

// The piece that a place is in, of the n bytes from the place `from` on of a ring of len bytes.
pub fn piece_of(len: usize, from: usize, n: usize, at: usize) -> Piece
    requires { (from ≤ len) × (n ≤ len) }
    ensures { PieceAt len from n at result }
{
    let room = len - from;
    if at < room {
        return Piece {
            plus: from,
            minus: 0,
            lim: n.min(room).saturating_sub(LONGEST),
        };
    }
    Piece {
        plus: 0,
        minus: room,
        lim: n.saturating_sub(LONGEST),
    }
}
