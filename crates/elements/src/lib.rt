// The elements of a message, one at a place: numbers, items, lists, pairs and versions, and what a field says. They are read
// in a view, whose bytes may lie around a slice's end.
//
// What is found at a place is exactly what stands there by `Matching`. One walk passes the elements of a list, of a map and of a
// run that build is given. Nothing is walked twice that need not be: the bytes are known to be one item, so that its last element
// ends where they end. Places past the end are met by no head and no item.
#![tactic(auto)]

ghost use Rattle.std.specs.Prelude.{◌≡◌, ℕ, ◌+◌, ◌^◌, ◌≤◌, ◌<◌, eqb, get_or, Option, Some, None};
ghost use Rattle.ring.specs.Inside.{seen};
ghost use Rattle.item.specs.Grammar.{nesting};
ghost use Rattle.elements.specs.Matching.{in_message, in_list, Break, past, opener};
ghost use Rattle.elements.specs.Inside.{before};
ghost use Rattle.elements.specs.Reading.{unsigned_at, opens_at, closed, item_end, size_end, sized_end, pair_end, key_at, version_at, element_at, elements_of, below, listed, bool_of, part_of};

use head::read::Head;
use head::{ARRAY, MAP, UNSIGNED};
use item::NESTING;
use ring::view::View;

// An element of a list, or of a map: an item; a pair [item, size]; a version, which is a key, and its value.
#[derive(Clone, Copy)]
pub enum Element {
    Item,
    Pair,
    Version,
}

// What stands in a message behind its number: an item; a list or map of elements; a number below a limit; a bool.
#[derive(Clone, Copy)]
pub enum Field {
    Item,
    List(Element),
    Below(u64),
    Bool,
}

// How far elements go: so many of them; up to a break; or up to the end of the bytes, as in a run that build is given.
#[derive(Clone, Copy)]
pub enum Extent {
    Counted(u64),
    Open,
    Rest,
}

// What a field says: a number, or start and length.
#[derive(Clone, Copy)]
pub enum Part {
    Number(u64),
    Place(usize, usize),
}

// The message's own array counts in the nesting, and so do a list, a pair and a map.
pub const IN_MESSAGE: usize = NESTING - 1;

pub const IN_LIST: usize = NESTING - 2;

// Versions and sizes are below 2^32, w is below 2^16, failure is 0 or 1.
pub const VERSION_LIMIT: u64 = 4294967296;

const SIZE_LIMIT: u64 = 4294967296;

pub const WORD_LIMIT: u64 = 65536;

pub const FAILURE_LIMIT: u64 = 2;

// A break is one byte.
pub const BREAK: u8 = 0xff;

// A bool is one byte.
const FALSE: u8 = 0xf4;

const TRUE: u8 = 0xf5;

// An unsigned number, of any width, and the place behind it.
#[tactic(auto, unfolding(crate::specs::Reading::unsigned_at))]
pub fn unsigned_at(v: View<'_>, at: usize) -> Option<(u64, usize)>
    ensures { result ≡ unsigned_at (seen v.entry) at }
{
    match head::read::head_at(v, at) {
        Head::Definite {
            major,
            argument,
            next,
        } => (major == UNSIGNED).then_some((argument, next)),
        Head::Indefinite { .. } | Head::Break { .. } | Head::Short | Head::Bad => None,
    }
}

// How far the elements of an array, or the pairs of a map, go, and the place of the first.
#[tactic(auto, unfolding(crate::specs::Reading::opens_at))]
pub fn opens_at(v: View<'_>, major: u8, at: usize) -> Option<(Extent, usize)>
    ensures { result ≡ opens_at (seen v.entry) major at }
{
    match head::read::head_at(v, at) {
        Head::Definite {
            major: m,
            argument,
            next,
        } => (m == major).then_some((Extent::Counted(argument), next)),
        Head::Indefinite { major: m, next } => (m == major).then_some((Extent::Open, next)),
        Head::Break { .. } | Head::Short | Head::Bad => None,
    }
}

// A break stands at a place.
fn breaks(v: View<'_>, at: usize) -> bool
    ensures { result ≡ eqb (get_or (seen v.entry) at 0) Break }
{
    at < v.len && v.byte(at) == BREAK
}

impl Extent {
    // Elements are at their end, with k of them, the last of which ends at this place.
    fn is_closed(self, v: View<'_>, k: u64, at: usize) -> bool
        ensures { result ≡ closed (seen v.entry) self k at }
    {
        match self {
            Extent::Counted(count) => k == count,
            Extent::Open => breaks(v, at),
            Extent::Rest => at == v.len,
        }
    }

    // The place behind elements that are at their end: a break counts to the array or map.
    fn past(self, q: usize) -> usize
        requires { past self q < 2 ^ 64 }
        ensures { result ≡ past self q }
    {
        match self {
            Extent::Open => q + 1,
            Extent::Counted(_) | Extent::Rest => q,
        }
    }

    // Where the elements end, by where their array does: in front of a break.
    fn before(self, r: usize) -> usize
        ensures { result ≡ before self r }
    {
        match self {
            Extent::Open => r.saturating_sub(1),
            Extent::Counted(_) | Extent::Rest => r,
        }
    }
}

// Where the item at a place ends, within the nesting d.
#[tactic(auto, unfolding(crate::specs::Reading::item_end))]
pub fn item_end(v: View<'_>, at: usize, d: usize) -> Option<usize>
    requires { d ≤ nesting }
    ensures { result ≡ item_end (seen v.entry) d at }
{
    if v.len < at {
        return None;
    }
    cbor::item_at(v, at, d).ok()
}

// Where a size ends, and an item with its size.
#[tactic(auto, unfolding(crate::specs::Reading::size_end))]
fn size_end(v: View<'_>, at: usize) -> Option<usize>
    ensures { result ≡ size_end (seen v.entry) at }
{
    let (size, q) = unsigned_at(v, at)?;
    (size < SIZE_LIMIT).then_some(q)
}

#[tactic(auto, unfolding(crate::specs::Reading::sized_end))]
fn sized_end(v: View<'_>, d: usize, at: usize) -> Option<usize>
    requires { d ≤ nesting }
    ensures { result ≡ sized_end (seen v.entry) d at }
{
    let q = item_end(v, at, d)?;
    size_end(v, q)
}

// Where a pair [item, size] ends.
#[tactic(auto, unfolding(crate::specs::Reading::pair_end))]
fn pair_end(v: View<'_>, d: usize, at: usize) -> Option<usize>
    requires { (0 < d) × (d ≤ nesting) }
    ensures { result ≡ pair_end (seen v.entry) d at }
{
    let (x, first) = opens_at(v, ARRAY, at)?;
    let q = sized_end(v, d - 1, first)?;
    if x.is_closed(v, 2, q) {
        Some(x.past(q))
    } else {
        None
    }
}

// The key of a version map: a version not below `low`.
#[tactic(auto, unfolding(crate::specs::Reading::key_at))]
fn key_at(v: View<'_>, low: u64, at: usize) -> Option<(u64, usize)>
    ensures { result ≡ key_at (seen v.entry) low at }
{
    let (key, q) = unsigned_at(v, at)?;
    if low <= key && key < VERSION_LIMIT {
        Some((key, q))
    } else {
        None
    }
}

// A key of a version map and its value: the next key is greater.
#[tactic(auto, unfolding(crate::specs::Reading::version_at))]
fn version_at(v: View<'_>, d: usize, low: u64, at: usize) -> Option<(u64, usize)>
    requires { d ≤ nesting }
    ensures { result ≡ version_at (seen v.entry) d low at }
{
    let (key, q) = key_at(v, low, at)?;
    Some((key + 1, item_end(v, q, d)?))
}

// The next element, where the one before left this: what it leaves to the next, and where it ends.
#[tactic(auto, unfolding(crate::specs::Reading::element_at))]
fn element_at(v: View<'_>, d: usize, e: Element, low: u64, at: usize) -> Option<(u64, usize)>
    requires { (0 < d) × (d ≤ nesting) }
    ensures { result ≡ element_at (seen v.entry) d e low at }
{
    match e {
        Element::Item => Some((0, item_end(v, at, d)?)),
        Element::Pair => Some((0, pair_end(v, d, at)?)),
        Element::Version => version_at(v, d, low, at),
    }
}

// Passes elements from a place on, within the nesting d: how many there are, and where the last of them ends.
pub fn walk(v: View<'_>, d: usize, e: Element, x: Extent, first: usize) -> Option<(u64, usize)>
    requires { (0 < d) × (d ≤ nesting) }
    ensures { result ≡ elements_of (seen v.entry) d e x first }
{
    let mut k: u64 = 0;
    let mut low: u64 = 0;
    let mut at = first;
    // Kept: no `for`, since the elements say where they close.
    while !x.is_closed(v, k, at) {
        let (next, q) = element_at(v, d, e, low, at)?;
        low = next;
        at = q;
        k += 1;
    }
    Some((k, at))
}

// A number below a limit.
fn below_at(v: View<'_>, limit: u64, at: usize) -> Option<(Part, usize)>
    ensures { result ≡ below limit (unsigned_at (seen v.entry) at) }
{
    let (n, q) = unsigned_at(v, at)?;
    (n < limit).then_some((Part::Number(n), q))
}

// A bool: one byte.
fn bool_at(v: View<'_>, at: usize) -> Option<(Part, usize)>
    ensures { result ≡ bool_of (get_or (seen v.entry) at 0) at }
{
    if v.len <= at {
        return None;
    }
    match v.byte(at) {
        FALSE => Some((Part::Number(0), at + 1)),
        TRUE => Some((Part::Number(1), at + 1)),
        _ => None,
    }
}

// Where an element of the message ends, which may be known.
fn element_end(v: View<'_>, at: usize, known: Option<usize>) -> Option<usize>
    requires { (q : ℕ) → known ≡ Some q → item_end (seen v) in_message at ≡ Some q }
    ensures { result ≡ item_end (seen v.entry) in_message at }
{
    match known {
        Some(q) => Some(q),
        None => item_end(v, at, IN_MESSAGE),
    }
}

// The major type of a list of such elements.
pub fn opener_of(e: Element) -> u8
    ensures { (result ≡ opener e) × (result < 8) }
{
    match e {
        Element::Item | Element::Pair => ARRAY,
        Element::Version => MAP,
    }
}

// The elements of the list at a place, the first of them behind its head: items end where the list does.
fn elements_at(
    v: View<'_>,
    e: Element,
    at: usize,
    x: Extent,
    first: usize,
    known: Option<usize>,
) -> Option<(Part, usize)>
    requires { ((q : ℕ) → known ≡ Some q → item_end (seen v) in_message at ≡ Some q) × (opens_at (seen v) (opener e) at ≡ Some (x, first)) }
    ensures { result ≡ listed x first (elements_of (seen v.entry) in_list e x first) }
{
    match e {
        Element::Item => {
            let r = element_end(v, at, known)?;
            Some((Part::Place(first, x.before(r).saturating_sub(first)), r))
        }
        Element::Pair | Element::Version => {
            let (_, q) = walk(v, IN_LIST, e, x, first)?;
            Some((Part::Place(first, q.saturating_sub(first)), x.past(q)))
        }
    }
}

// A list, or a map.
#[tactic(auto, unfolding(crate::specs::Reading::part_of))]
fn list_at(v: View<'_>, e: Element, at: usize, known: Option<usize>) -> Option<(Part, usize)>
    requires { (q : ℕ) → known ≡ Some q → item_end (seen v) in_message at ≡ Some q }
    ensures { result ≡ part_of (seen v.entry) (Field.List e) at }
{
    let (x, first) = opens_at(v, opener_of(e), at)?;
    elements_at(v, e, at, x, first, known)
}

// What a field at a place says, and the place behind it, if it is what it should be; `known` is where it ends, if that is known.
#[tactic(auto, unfolding(crate::specs::Reading::part_of))]
pub fn part_at(v: View<'_>, f: Field, at: usize, known: Option<usize>) -> Option<(Part, usize)>
    requires { (q : ℕ) → known ≡ Some q → item_end (seen v) in_message at ≡ Some q }
    ensures { result ≡ part_of (seen v.entry) f at }
{
    match f {
        Field::Item => {
            let q = element_end(v, at, known)?;
            Some((Part::Place(at, q.saturating_sub(at)), q))
        }
        Field::List(e) => list_at(v, e, at, known),
        Field::Below(limit) => below_at(v, limit, at),
        Field::Bool => bool_at(v, at),
    }
}
