// How a message lies in a buffer: its own heads as short as can be, of the arguments that its parts give, and the runs as they are. A list
// is of indefinite length, with a break behind its run, where the caller asks for it.
//
// Each contract says how long they are, or every byte that the buffer then holds: nothing else is written.
#![tactic(auto)]

pub mod message;

ghost use Rattle.std.specs.Prelude.{◌≡◌, [], ◌∷◌, ◌+◌, ◌≤◌, ◌<◌, length};
ghost use Rattle.layout.specs.Asked.{openly};
ghost use Rattle.layout.specs.Inside.{headless, major_of, open_in, head_of, tail_of, break_of, own_length, Put, piece_of};

use elements::{BREAK, Element, Field};
use head::{SIMPLE, UNSIGNED};
use parts::is_number;

// The head of an array of indefinite length; no map is written so.
const OPEN_ARRAY: u8 = 0x9f;

// An item has no head of ours.
fn is_headless(f: Field) -> bool
    ensures { result ≡ headless f }
{
    matches!(f, Field::Item)
}

// The major type of a field's head.
fn major(f: Field) -> u8
    ensures { (result ≡ major_of f) × (result < 8) }
{
    match f {
        Field::List(e) => elements::opener_of(e),
        Field::Bool => SIMPLE,
        _ => UNSIGNED,
    }
}

// A list is written of indefinite length where that is asked for, and a version map never.
fn list_open(asked: bool, e: Element) -> bool
    ensures { result ≡ openly asked e }
{
    match e {
        Element::Item | Element::Pair => asked,
        Element::Version => false,
    }
}

fn is_open(asked: bool, f: Field) -> bool
    ensures { result ≡ open_in asked f }
{
    match f {
        Field::List(e) => list_open(asked, e),
        _ => false,
    }
}

// How long a field's head is, with the break where it has one.
fn own_len(asked: bool, f: Field, argument: u64) -> usize
    ensures { (result ≡ own_length asked f argument) × (result ≤ 9) }
{
    if is_headless(f) {
        0
    } else if is_open(asked, f) {
        2
    } else {
        head::write::head_len(argument)
    }
}

// Puts a byte at a place, and hands back the place behind it.
fn put_byte(buf: &mut [u8], at: usize, b: u8) -> usize
    requires { at < length buf.old }
    ensures { Put buf.old at (b ∷ []) result buf.new }
{
    buf[at] = b;
    at + 1
}

// The same of a field's head.
fn put_head(buf: &mut [u8], at: usize, asked: bool, f: Field, argument: u64) -> usize
    requires { at + length (head_of asked f argument) ≤ length buf.old }
    ensures { Put buf.old at (head_of asked f argument) result buf.new }
{
    if is_headless(f) {
        at
    } else if is_open(asked, f) {
        put_byte(buf, at, OPEN_ARRAY)
    } else {
        head::write::write_head(buf, at, major(f), argument)
    }
}

// The same of the break behind its run.
fn put_break(buf: &mut [u8], at: usize, asked: bool, f: Field) -> usize
    requires { at + length (break_of asked f) ≤ length buf.old }
    ensures { Put buf.old at (break_of asked f) result buf.new }
{
    if is_open(asked, f) {
        put_byte(buf, at, BREAK)
    } else {
        at
    }
}

// The same of a run.
fn put_run(buf: &mut [u8], at: usize, run: &[u8]) -> usize
    requires { at + length run.now ≤ length buf.old }
    ensures { Put buf.old at run.now result buf.new }
{
    let end = at + run.len();
    buf[at..end].copy_from_slice(run);
    end
}

// The same of a field's run, if it has one.
fn put_tail(buf: &mut [u8], at: usize, f: Field, run: &[u8]) -> usize
    requires { at + length (tail_of f run.now) ≤ length buf.old }
    ensures { Put buf.old at (tail_of f run.now) result buf.new }
{
    if is_number(f) {
        at
    } else {
        put_run(buf, at, run)
    }
}

// A field: its head, its run, and the break.
#[tactic(auto, using(crate::proofs::LayoutLaws::piece_parts))]
fn put_field(buf: &mut [u8], at: usize, asked: bool, f: Field, argument: u64, run: &[u8]) -> usize
    requires { at + length (piece_of asked f argument run.now) ≤ length buf.old }
    ensures { Put buf.old at (piece_of asked f argument run.now) result buf.new }
{
    let behind = put_head(buf, at, asked, f, argument);
    let end = put_tail(buf, behind, f, run);
    put_break(buf, end, asked, f)
}
