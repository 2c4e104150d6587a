// Messages: the forms of document 01 and of K1, and reading a message's kind, numbers and places.
//
// Taking and putting read by the same function. It answers in phases, so that a reader can tell them apart: an array that an unsigned
// number opens; a known kind; the count of elements; the fields from left to right. The fields are read before the count is told, so that no
// list is walked to be counted: the head of the array says the count, or only the elements are counted that are left where the fields stop.
#![tactic(auto)]

pub mod forms;

ghost use Rattle.std.specs.Prelude.{◌≡◌, ℕ, ◌≤◌, ◌<◌, length, Some, Ok};
ghost use Rattle.ring.specs.Inside.{seen};
ghost use Rattle.item.specs.Verdict.{verdict};
ghost use Rattle.elements.specs.Besides.Matching.{ItemsAt};
ghost use Rattle.elements.specs.Matching.{in_message};
ghost use Rattle.messages.specs.Matching.{begun, with_number, with_place};
ghost use Rattle.messages.specs.Reading.{with_part, fields_of, counted, count_from, message_of, flag_of};
ghost use Rattle.messages.specs.Inside.{form_count, form_at, Begins, Stopped, last_end, has_count};

use elements::{Element, Extent, IN_MESSAGE, Part};
use head::ARRAY;
use ring::view::View;
use rows::Protocol;

// Why bytes are no message.
#[derive(Clone, Copy, PartialEq, Eq)]
pub enum Unread {
    // they are no array that an unsigned number opens
    NotArray,
    // no message of the protocol has this number
    UnknownKind,
    // the array has more or fewer elements than the form
    WrongCount,
    // the element at this place of the array is not that of the form
    WrongField(u64),
}

// No form has more numbers, nor more items, lists and maps.
pub const MOST_NUMBERS: usize = 3;

pub const MOST_PLACES: usize = 2;

// What a message says: its number, the numbers in it, and the start and length of each item, list and map, in order.
// `count` is how many numbers it has, and `parts` how many items, lists and maps. What is not set is 0.
// Kept: arrays with a count beside, since nothing is allocated and the record that look and drop show goes by value.
#[derive(Clone, Copy)]
pub struct Message {
    pub kind: u64,
    pub numbers: [u64; MOST_NUMBERS],
    pub count: usize,
    pub places: [usize; 2 * MOST_PLACES],
    pub parts: usize,
}

// What reading the fields comes to, and where it stopped: how many fields are left, a wrong one included, and the place.
#[derive(Clone, Copy)]
struct Stop {
    message: Result<Message, Unread>,
    left: u64,
    at: usize,
}

// A message of which nothing but its kind is known.
pub fn begin(kind: u64) -> Message
    ensures { result ≡ begun kind }
{
    Message {
        kind,
        numbers: [0; MOST_NUMBERS],
        count: 0,
        places: [0; 2 * MOST_PLACES],
        parts: 0,
    }
}

impl Message {
    // One number more is said, or one item, list or map.
    fn say_number(&mut self, v: u64)
        requires { self.old.count < 3 }
        ensures { self.new ≡ with_number self.old v }
    {
        self.numbers[self.count] = v;
        self.count += 1;
    }

    fn say_place(&mut self, start: usize, size: usize)
        requires { self.old.parts < 3 }
        ensures { self.new ≡ with_place self.old start size }
    {
        if self.parts < MOST_PLACES {
            self.places[self.parts * 2] = start;
            self.places[self.parts * 2 + 1] = size;
        }
        self.parts += 1;
    }

    // What a field says is said.
    fn say(&mut self, part: Part)
        requires { (self.old.count < 3) × (self.old.parts < 3) }
        ensures { self.new ≡ with_part self.old part }
    {
        match part {
            Part::Number(v) => self.say_number(v),
            Part::Place(start, size) => self.say_place(start, size),
        }
    }
}

// The fields of the form in a row, from left to right, the first of them at the place `first`; `end` is where the last ends, if
// that is known.
fn fields(v: View<'_>, row: usize, kind: u64, first: usize, end: Option<usize>) -> Stop
    requires in_bounds { (row < form_count) × (first ≤ v.len) }
    requires by_index { (q : ℕ) → end ≡ Some q → ItemsAt (seen v) in_message (length (form_at row).fields) first q }
    ensures { (result.message ≡ fields_of (seen v.entry) (form_at row).fields 1 first (begun kind)) × Stopped (seen v.entry) (length (form_at row).fields) first result.left result.at }
{
    let count = forms::fields(row);
    let mut message = begin(kind);
    let mut at = first;
    for i in 0..count {
        let known = if i + 1 == count { end } else { None };
        let Some((part, q)) = elements::part_at(v, forms::field_at(row, i), at, known) else {
            return Stop {
                message: Err(Unread::WrongField(i as u64 + 1)),
                left: (count - i) as u64,
                at,
            };
        };
        message.say(part);
        at = q;
    }
    Stop {
        message: Ok(message),
        left: 0,
        at,
    }
}

// How many elements stand in an array of indefinite length from a place on: as many as are in front of its break.
fn count_open(v: View<'_>, first: usize) -> u64
    ensures { result ≡ count_from (seen v.entry) Extent.Open first }
{
    match elements::walk(v, IN_MESSAGE, Element::Item, Extent::Open, first) {
        Some((k, _)) => k,
        None => 0,
    }
}

// Where the last of so many elements ends, if the head of their array says that it has so many: where the bytes end.
fn last_end(x: Extent, count: u64, n: usize) -> Option<usize>
    ensures { result ≡ last_end x count n }
{
    match x {
        Extent::Counted(k) => (k == count).then_some(n),
        Extent::Open | Extent::Rest => None,
    }
}

// Whether the array has so many elements: its head says so, or from the place `at` on as many stand up to its break as are left.
fn has_count(v: View<'_>, x: Extent, count: u64, left: u64, at: usize) -> bool
    ensures { result ≡ has_count (seen v.entry) x count left at }
{
    match x {
        Extent::Counted(k) => k == count,
        Extent::Open => count_open(v, at) == left,
        Extent::Rest => false,
    }
}

// The fields of the form in a row, and whether the array has as many elements as it.
fn filled(
    v: View<'_>,
    row: usize,
    x: Extent,
    first: usize,
    kind: u64,
    next: usize,
) -> Result<Message, Unread>
    requires in_bounds { row < form_count }
    requires begins { Begins (seen v) x first kind next }
    ensures { result ≡ counted (seen v.entry) (count_from (seen v.entry) x first) kind next (Some (form_at row).fields) }
{
    let count = forms::fields(row) as u64 + 1;
    let stop = fields(v, row, kind, next, last_end(x, count, v.len));
    if has_count(v, x, count, stop.left, stop.at) {
        stop.message
    } else {
        Err(Unread::WrongCount)
    }
}

// Reads the bytes of a view, which are exactly one item within the nesting.
#[tactic(auto, unfolding(crate::specs::Reading::message_of, crate::specs::Reading::numbered_of))]
pub fn read(p: Protocol, v: View<'_>) -> Result<Message, Unread>
    requires { verdict (seen v) ≡ Ok v.len }
    ensures { result ≡ message_of p (seen v.entry) }
{
    let (x, first) = elements::opens_at(v, ARRAY, 0).ok_or(Unread::NotArray)?;
    let (kind, next) = elements::unsigned_at(v, first).ok_or(Unread::NotArray)?;
    let row = forms::find(p, kind).ok_or(Unread::UnknownKind)?;
    filled(v, row, x, first, kind, next)
}

// The flag by which the rows tell RequestTxIds, whose kind is 0, with true from RequestTxIds with false.
#[tactic(auto, unfolding(crate::specs::Reading::flag_of))]
pub fn flag(p: Protocol, m: Message) -> u64
    ensures { result ≡ flag_of p m }
{
    match p {
        Protocol::TxSubmission if m.kind == 0 => m.numbers[0],
        _ => 0,
    }
}
