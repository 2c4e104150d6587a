// Text in a lent buffer, for the programs: each function writes at a place and answers the place behind
// what it wrote. The rest of the buffer stays as it was.
#![tactic(auto)]

ghost use Rattle.std.specs.Prelude.{◌≡◌, ◌+◌, ◌/◌, ◌%◌, ◌<◌, ◌≤◌, length, set};
ghost use Rattle.io.specs.Digits.{hex_digit_ascii};
ghost use Rattle.text.specs.Inside.{Decimal};

// How many digits a number of 64 bits has at most.
pub const DIGITS: usize = 20;

// One byte.
pub fn byte(out: &mut [u8], at: usize, b: u8) -> usize
    requires { at < length out.old }
    ensures { (result ≡ at + 1) × (out.new ≡ set out.old at b) }
{
    out[at] = b;
    at + 1
}

// A number in decimal, without leading zeros.
pub fn decimal(out: &mut [u8], at: usize, n: u64) -> usize
    requires { at + 20 ≤ length out.old }
    ensures { Decimal out.old at n out.new result }
{
    let mut digits = [0; DIGITS];
    let k = io::decimal(n, &mut digits);
    ring::copy(out, at, &digits, 0, k);
    at + k
}

// A byte in hex, two digits in lower case.
pub fn hex(out: &mut [u8], at: usize, b: u8) -> usize
    requires { at + 2 ≤ length out.old }
    ensures { (result ≡ at + 2) × (out.new ≡ set (set out.old at (hex_digit_ascii (b / 16))) (at + 1) (hex_digit_ascii (b % 16))) }
{
    out[at] = digit(b / 16);
    out[at + 1] = digit(b % 16);
    at + 2
}

// Kept: no `io::hex`, which fills sixteen bytes of its own, of which two would be copied.
// A digit below 10 is so far behind `0`, and one from 10 on so far behind what is ten before `a`.
fn digit(d: u8) -> u8
    requires { d < 16 }
    ensures { result ≡ hex_digit_ascii d }
{
    if d < 10 { b'0' + d } else { b'a' - 10 + d }
}
