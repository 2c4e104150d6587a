// Points and tips of a chain, read from Chain-Sync's items.
//
// A point is [], the origin, or [slot, hash of 32 bytes]; a tip is [point, block number]. Arrays are of either length form,
// heads of any width, and the hash is of definite length. A reading asks for exactly one item: anything else is refused.
#![tactic(auto)]

ghost use Rattle.std.specs.Prelude.{◌≡◌, ◌+◌, ◌≤◌, length, Some};
ghost use Rattle.head.specs.Read.{head_at};
ghost use Rattle.points.specs.Points.{leads, opening, ending, hash_at, hashed, block_at, broken, point_by, point_at, pair_at, tip_at, whole, point_of, tip_of, number_of};

use head::read::Head;
use head::{ARRAY, BYTES, UNSIGNED};
use ring::view::View;

// How many bytes a hash has.
const HASH: usize = 32;

// A hash in four words of eight bytes, big-endian.
// Kept: an array of four words is no plainer, for `hash_at` and `same_hash` name the words.
#[derive(Clone, Copy, Debug, PartialEq, Eq)]
pub struct Hash {
    pub a: u64,
    pub b: u64,
    pub c: u64,
    pub d: u64,
}

// The point of a block.
#[derive(Clone, Copy, Debug, PartialEq, Eq)]
pub struct Point {
    pub slot: u64,
    pub hash: Hash,
}

// Where a chain is: at the origin, before its first block, or at a block.
// Kept: an `Option<Point>` is no plainer, for the origin is a point of the chain, and no point is missing there.
#[derive(Clone, Copy, Debug, PartialEq, Eq)]
pub enum Place {
    Origin,
    Block(Point),
}

// A tip: where a chain is, and how many blocks it has up to there.
#[derive(Clone, Copy, Debug, PartialEq, Eq)]
pub struct Tip {
    pub place: Place,
    pub block: u64,
}

// Why a reading is refused: the bytes are not exactly one point, or tip.
#[derive(Clone, Copy, Debug, PartialEq, Eq)]
pub struct NotAPoint;

impl NotAPoint {
    // The number of this refusal.
    pub fn number(self) -> u64
        ensures { result ≡ number_of self }
    {
        29
    }
}

// An array that opens, with the place of its first element: of so many elements, or of all up to a break.
#[derive(Clone, Copy)]
enum Opening {
    Counted(u64, usize),
    Endless(usize),
}

// The head at a place.
fn head_at(s: &[u8], at: usize) -> Head
    ensures { result ≡ head_at s.now at }
{
    head::read::head_at(View::all(s), at)
}

// The argument of a head of a major type, and of definite length, with the place behind the head.
fn leading(major: u8, h: Head) -> Option<(u64, usize)>
    ensures { result ≡ leads major h }
{
    match h {
        Head::Definite {
            major: m,
            argument,
            next,
        } if m == major => Some((argument, next)),
        _ => None,
    }
}

// The array that a head opens, of either length form.
fn opened(h: Head) -> Option<Opening>
    ensures { result ≡ opening h }
{
    match h {
        Head::Definite {
            major,
            argument,
            next,
        } if major == ARRAY => Some(Opening::Counted(argument, next)),
        Head::Indefinite { major, next } if major == ARRAY => Some(Opening::Endless(next)),
        _ => None,
    }
}

// The place behind a break.
fn break_of(h: Head) -> Option<usize>
    ensures { result ≡ ending h }
{
    match h {
        Head::Break { next } => Some(next),
        _ => None,
    }
}

// The hash in the 32 bytes from a place on.
fn hash_at(s: &[u8], at: usize) -> Hash
    requires { at + 32 ≤ length s.now }
    ensures { result ≡ hash_at s.now at }
{
    Hash {
        a: base::number::read(s, at, 8),
        b: base::number::read(s, at + 8, 8),
        c: base::number::read(s, at + 16, 8),
        d: base::number::read(s, at + 24, 8),
    }
}

// A block whose slot is known, and whose hash is the n bytes from a place on.
#[tactic(auto, unfolding(crate::specs::Points::hashed))]
fn block_of(s: &[u8], slot: u64, n: u64, at: usize) -> Option<(Place, usize)>
    ensures { result ≡ hashed s.now slot n at }
{
    if n != HASH as u64 || s.len().saturating_sub(at) < HASH {
        return None;
    }
    let hash = hash_at(s, at);
    Some((Place::Block(Point { slot, hash }), at + HASH))
}

// A slot and a hash, from a place on.
#[tactic(auto, unfolding(crate::specs::Points::block_at, crate::specs::Points::hash_behind))]
fn block_at(s: &[u8], at: usize) -> Option<(Place, usize)>
    ensures { result ≡ block_at s.now at }
{
    let (slot, at) = leading(UNSIGNED, head_at(s, at))?;
    let (n, at) = leading(BYTES, head_at(s, at))?;
    block_of(s, slot, n, at)
}

// What stands in an array of indefinite length, up to behind a break, which has to follow.
fn break_behind<T: Copy>(s: &[u8], what: Option<(T, usize)>) -> Option<(T, usize)>
    ensures { result ≡ broken s.now what }
{
    let (what, at) = what?;
    let end = break_of(head_at(s, at))?;
    Some((what, end))
}

// A point of all elements up to a break, from the first on.
fn endless_point(s: &[u8], at: usize) -> Option<(Place, usize)>
    ensures { result ≡ point_by s.now (Some (Opening.Endless at)) }
{
    match break_of(head_at(s, at)) {
        Some(end) => Some((Place::Origin, end)),
        None => break_behind(s, block_at(s, at)),
    }
}

// The point at a place, and the place behind it.
#[tactic(auto, unfolding(crate::specs::Points::point_at))]
fn point_at(s: &[u8], at: usize) -> Option<(Place, usize)>
    ensures { result ≡ point_at s.now at }
{
    match opened(head_at(s, at))? {
        Opening::Counted(0, first) => Some((Place::Origin, first)),
        Opening::Counted(2, first) => block_at(s, first),
        Opening::Counted(_, _) => None,
        Opening::Endless(first) => endless_point(s, first),
    }
}

// A point and a block number, from a place on.
#[tactic(auto, unfolding(crate::specs::Points::pair_at))]
fn pair_at(s: &[u8], at: usize) -> Option<(Tip, usize)>
    ensures { result ≡ pair_at s.now at }
{
    let (place, at) = point_at(s, at)?;
    let (block, at) = leading(UNSIGNED, head_at(s, at))?;
    Some((Tip { place, block }, at))
}

// The tip at a place, and the place behind it.
#[tactic(auto, unfolding(crate::specs::Points::tip_at))]
fn tip_at(s: &[u8], at: usize) -> Option<(Tip, usize)>
    ensures { result ≡ tip_at s.now at }
{
    match opened(head_at(s, at))? {
        Opening::Counted(2, first) => pair_at(s, first),
        Opening::Counted(_, _) => None,
        Opening::Endless(first) => break_behind(s, pair_at(s, first)),
    }
}

// What stands at the front of n bytes, which has to be all of them.
fn all_of<T: Copy>(what: Option<(T, usize)>, n: usize) -> Result<T, NotAPoint>
    ensures { result ≡ whole n what }
{
    match what {
        Some((what, end)) if end == n => Ok(what),
        _ => Err(NotAPoint),
    }
}

// Reads a point; bytes that are not exactly one are refused.
#[tactic(auto, unfolding(crate::specs::Points::point_of))]
pub fn read_point(item: &[u8]) -> Result<Place, NotAPoint>
    ensures { result ≡ point_of item.now }
{
    all_of(point_at(item, 0), item.len())
}

// Reads a tip; bytes that are not exactly one are refused.
#[tactic(auto, unfolding(crate::specs::Points::tip_of))]
pub fn read_tip(item: &[u8]) -> Result<Tip, NotAPoint>
    ensures { result ≡ tip_of item.now }
{
    all_of(tip_at(item, 0), item.len())
}
