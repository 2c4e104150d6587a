// Numbers: decimal, without leading zeros, below 2^64.
use crate::Word;

// The number that a word of a line spells.
pub fn of(line: &[u8], w: Word) -> Option<u64> {
    read(w.text(line))
}

// The number that a text spells. A zero in front is the whole number.
fn read(text: &[u8]) -> Option<u64> {
    match text {
        [] => None,
        [b'0'] => Some(0),
        [b'0', ..] => None,
        _ => text.iter().try_fold(0, |n, b| longer(n, *b)),
    }
}

// The digits of n with one behind them, if that is a digit and the value is below 2^64.
fn longer(n: u64, b: u8) -> Option<u64> {
    if !b.is_ascii_digit() {
        return None;
    }
    n.checked_mul(10)?.checked_add(u64::from(b - b'0'))
}
