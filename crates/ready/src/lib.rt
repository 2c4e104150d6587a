// Who has bytes to send: the ready word, and whose turn it is.
//
// Bit i of the word is set when instance i has bytes waiting. How many are ready and which is lowest are the word's
// ones and trailing zeros; the next instance is found in the word, from the turn on.
#![tactic(auto)]

ghost use Rattle.std.specs.Prelude.{◌≡◌, ◌<◌, ◌≤◌, ◌^◌, length, take};
ghost use Rattle.wire.specs.Instances.{most};
ghost use Rattle.ready.specs.Ready.{bit_of, word_of, ready_of, after_of, turn_after};
ghost use Rattle.ready.specs.Inside.{bit_set, chosen_in};

use wire::instances::INSTANCES;

// Status tells these: the word, how many instances are ready, and which is lowest, 255 if none.
// Kept: 255 for none, which status shows (`status_of`).
#[derive(Clone, Copy)]
pub struct Ready {
    pub word: u64,
    pub count: u64,
    pub lowest: u64,
}

// Whether a count is not 0, as a bit.
fn bit(n: u64) -> u64
    ensures { (result ≡ bit_of n) × (result ≤ 1) }
{
    u64::from(n != 0)
}

// The ready word of the first n waiting counts: those of a bundle of n instances.
// Kept: document 01 names arrays of counts by value, here and in `ready_of`.
pub fn word(waiting: [u64; INSTANCES], n: usize) -> u64
    requires { n ≤ most }
    ensures { (result ≡ word_of (take n waiting)) × (result < 2 ^ most) × (length (take n waiting) ≡ n) }
{
    let mut word = 0;
    for i in (0..n).rev() {
        word = word * 2 + bit(waiting[i]);
    }
    word
}

// Who of n instances is ready, from the waiting counts.
pub fn ready_of(waiting: [u64; INSTANCES], n: usize) -> Ready
    requires { n ≤ most }
    ensures { result ≡ ready_of (take n waiting) }
{
    let word = word(waiting, n);
    Ready {
        word,
        count: u64::from(word.count_ones()),
        lowest: if word == 0 {
            255
        } else {
            u64::from(word.trailing_zeros())
        },
    }
}

// Whether bit i of a word is set.
fn is_set(word: u64, i: usize) -> bool
    requires { i < 64 }
    ensures { result ≡ bit_set word i }
{
    (word >> i) % 2 == 1
}

// The instance after i, of n, going round from the last to 1.
pub fn after(n: usize, i: usize) -> usize
    requires { (2 ≤ n) × (i < n) }
    ensures { (result ≡ after_of n i) × (result < n) }
{
    if i + 1 == n { 1 } else { i + 1 }
}

// Whom the word and the turn choose, of n instances: instance 0 first, else the bits one by one from the turn on.
pub fn choose(n: usize, word: u64, turn: usize) -> Option<usize>
    requires { (2 ≤ n) × (n ≤ most) × (turn < n) }
    ensures { result ≡ chosen_in n word turn }
{
    if is_set(word, 0) {
        return Some(0);
    }
    let mut i = turn;
    for _ in 1..n {
        if is_set(word, i) {
            return Some(i);
        }
        i = after(n, i);
    }
    None
}

// The turn after serving i, of n, which serving instance 0 does not move.
pub fn turn_after(n: usize, i: usize, turn: u64) -> u64
    requires { (2 ≤ n) × (i < n) }
    ensures { result ≡ turn_after n i turn }
{
    if i == 0 {
        return turn;
    }
    after(n, i) as u64
}
