// A head read at a place of a view, whose bytes may lie in a ring.
ghost use Rattle.std.specs.Prelude.{◌≡◌, ◌+◌, ◌≤◌, ◌<◌, ◌^◌, length};
ghost use Rattle.base.specs.Numbers.{number};
ghost use Rattle.ring.specs.Ring.{run};
ghost use Rattle.ring.specs.Inside.{seen};
ghost use Rattle.head.specs.Read.{head_at, long_at, simple_at};

use super::{INFOS, Initial, SIMPLE, initial_of};
use ring::view::View;

// What stands at a place: a head with its major type, 0 to 7, its argument and the place behind it; one of indefinite
// length; a break; a head whose bytes are not all there; or bytes that begin no head.
// Kept: five sorts in one enum, as RFC 8949 tells heads; a break is no failure where a list may end, nor a success where an item is due.
#[derive(Clone, Copy)]
pub enum Head {
    Definite {
        major: u8,
        argument: u64,
        next: usize,
    },
    Indefinite {
        major: u8,
        next: usize,
    },
    Break {
        next: usize,
    },
    Short,
    Bad,
}

// The number that the k bytes at the place `at` spell.
pub fn number_at(v: View<'_>, at: usize, k: usize) -> u64
    requires { (at + k ≤ v.len) × (k ≤ 8) }
    ensures { (result ≡ number (run (seen v.entry) at k)) × (result < 256 ^ k) }
{
    let mut n: u64 = 0;
    for j in 0..k {
        n = n * 256 + u64::from(v.byte(at + j));
    }
    n
}

// A head whose argument is in the k bytes at the place `at`.
fn long_at(v: View<'_>, major: u8, k: usize, at: usize) -> Head
    requires { (at ≤ v.len) × (k ≤ 8) }
    ensures { result ≡ long_at (seen v.entry) major k at }
{
    if v.len - at < k {
        return Head::Short;
    }
    Head::Definite {
        major,
        argument: number_at(v, at, k),
        next: at + k,
    }
}

// A simple value in the byte at the place `at`.
fn simple_at(v: View<'_>, at: usize) -> Head
    ensures { result ≡ simple_at (seen v.entry) at }
{
    if v.len <= at {
        return Head::Short;
    }
    let argument = u64::from(v.byte(at));
    if argument < 32 {
        return Head::Bad;
    }
    Head::Definite {
        major: SIMPLE,
        argument,
        next: at + 1,
    }
}

// The head at the place `at`.
pub fn head_at(v: View<'_>, at: usize) -> Head
    ensures { result ≡ head_at (seen v.entry) at }
{
    if v.len <= at {
        return Head::Short;
    }
    let b = v.byte(at);
    let major = b / INFOS;
    let next = at + 1;
    match initial_of(b) {
        Initial::Short(_, argument) => Head::Definite {
            major,
            argument,
            next,
        },
        Initial::Long(_, k) => long_at(v, major, k + 1, next),
        Initial::Indefinite(_) => Head::Indefinite { major, next },
        Initial::Simple => simple_at(v, next),
        Initial::Break => Head::Break { next },
        Initial::Reserved => Head::Bad,
    }
}
