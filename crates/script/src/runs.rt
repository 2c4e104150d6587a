// Runs of bytes: lower-case hex, two digits a byte; the empty run is a point.
ghost use Rattle.std.specs.Prelude.{◌+◌, ◌≤◌, ◌<◌, length, IfSome};

use crate::Word;

// Makes a word of a line bytes, from where it begins on, and answers how many. Of a word that is no run, some may be changed.
pub fn of(line: &mut [u8], w: Word) -> Option<usize> {
    read(line.get_mut(w.from..w.to)?)
}

// Makes a text bytes, at its front, and answers how many.
pub fn read(text: &mut [u8]) -> Option<usize> {
    let n = text.len();
    if n == 1 && text[0] == b'.' {
        return Some(0);
    }
    if n == 0 || n % 2 != 0 {
        return None;
    }
    decode(text, n / 2)
}

// n bytes from 2n digits. The byte at i is written behind no digit that is still to be read.
fn decode(text: &mut [u8], n: usize) -> Option<usize>
    requires { n + n ≤ length text.old }
{
    for i in 0..n {
        text[i] = digit(text[i + i])? * 16 + digit(text[i + i + 1])?;
    }
    Some(n)
}

// The value of a digit.
fn digit(b: u8) -> Option<u8>
    ensures { IfSome result (λ d. d < 16) }
{
    match b {
        b'0'..=b'9' => Some(b - b'0'),
        b'a'..=b'f' => Some(b - b'a' + 10),
        _ => None,
    }
}
