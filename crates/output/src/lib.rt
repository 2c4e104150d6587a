// Lines on standard output, by way of a lent buffer, and the one line on standard error of a program that can't go on.
//
// Each piece of a line is put behind the one before it; where there is no room, what stands in the buffer is written out
// first. What a number and a byte look like is proved in `text`; what is printed of them is run and compared.
#![tactic(auto)]

ghost use Rattle.std.specs.Prelude.{◌≡◌, ◌+◌, ◌≤◌, length, OnOk};
ghost use Rattle.output.specs.Inside.{EndsIn, EndsInDecimal, EndsInHex, OfLast};

use std::io::{Stderr, Stdout};
use text::DIGITS;

// How many digits a byte has.
const HEX: usize = 2;

// How much of a line of words alone is written at once.
const SPACE: usize = 64;

// Not all of a line was written: a write failed, or the buffer is too short for a piece.
#[derive(Clone, Copy, Debug, PartialEq, Eq)]
pub struct WriteFailed;

// A line under way: standard output, the buffer, and the place of the next byte in it.
// Kept: a buffer with the place beside, and no `String`, since nothing is allocated.
#[derive(Drop)]
pub struct Writer<'a> {
    stdout: Stdout,
    out: &'a mut [u8],
    at: usize,
    ghost within: { at ≤ length out.now },
}

impl Writer<'_> {
    // At the start of a line.
    pub fn new(stdout: Stdout, out: &mut [u8]) -> Writer<'_>
        ensures { result.at ≡ 0 }
    {
        Writer { stdout, out, at: 0 }
    }

    // Writes out what stands in the buffer.
    fn flush(&mut self) -> Result<(), WriteFailed>
        ensures { (self.new.at ≡ 0) × (length self.new.out.now ≡ length self.old.out.now) }
    {
        let written = self.stdout.write_all(&self.out[..self.at]);
        self.at = 0;
        written.map_err(|_| WriteFailed)
    }

    // Makes room for n bytes.
    fn reserve(&mut self, n: usize) -> Result<(), WriteFailed>
        ensures { OnOk result (self.new.at + n ≤ length self.new.out.now) }
    {
        if self.out.len() < n {
            return Err(WriteFailed);
        }
        if self.out.len() - self.at < n {
            self.flush()?;
        }
        Ok(())
    }

    // One byte.
    pub fn byte(&mut self, b: u8) -> Result<(), WriteFailed>
        ensures { OnOk result (EndsIn b self.new.out.now self.new.at) }
    {
        self.reserve(1)?;
        self.at = text::byte(self.out, self.at, b);
        Ok(())
    }

    // The first word of a line, or several.
    pub fn words(&mut self, words: &[u8]) -> Result<(), WriteFailed>
        ensures { OnOk result (OfLast (λ b. EndsIn b self.new.out.now self.new.at) words.now) }
    {
        for b in words {
            self.byte(*b)?;
        }
        Ok(())
    }

    // A number in decimal.
    pub fn decimal(&mut self, n: u64) -> Result<(), WriteFailed>
        ensures { OnOk result (EndsInDecimal n self.new.out.now self.new.at) }
    {
        self.reserve(DIGITS)?;
        self.at = text::decimal(self.out, self.at, n);
        Ok(())
    }

    // A space and a number.
    pub fn number(&mut self, n: u64) -> Result<(), WriteFailed>
        ensures { OnOk result (EndsInDecimal n self.new.out.now self.new.at) }
    {
        self.byte(b' ')?;
        self.decimal(n)
    }

    // Numbers, each behind a space.
    pub fn numbers(&mut self, numbers: &[u64]) -> Result<(), WriteFailed>
        ensures { OnOk result (OfLast (λ n. EndsInDecimal n self.new.out.now self.new.at) numbers.now) }
    {
        for n in numbers {
            self.number(*n)?;
        }
        Ok(())
    }

    // A space and a list of numbers.
    pub fn list(&mut self, numbers: &[u64]) -> Result<(), WriteFailed>
        ensures { OnOk result (OfLast (λ n. EndsInDecimal n self.new.out.now self.new.at) numbers.now) }
    {
        self.byte(b' ')?;
        if numbers.is_empty() {
            return self.byte(b'-');
        }
        for (i, n) in numbers.iter().enumerate() {
            if 0 < i {
                self.byte(b',')?;
            }
            self.decimal(*n)?;
        }
        Ok(())
    }

    // Bytes in hex.
    pub fn hex(&mut self, bytes: &[u8]) -> Result<(), WriteFailed>
        ensures { OnOk result (OfLast (λ b. EndsInHex b self.new.out.now self.new.at) bytes.now) }
    {
        for b in bytes {
            self.reserve(HEX)?;
            self.at = text::hex(self.out, self.at, *b);
        }
        Ok(())
    }

    // A space and a run of bytes.
    pub fn run(&mut self, bytes: &[u8]) -> Result<(), WriteFailed>
        ensures { OnOk result (OfLast (λ b. EndsInHex b self.new.out.now self.new.at) bytes.now) }
    {
        self.byte(b' ')?;
        if bytes.is_empty() {
            return self.byte(b'.');
        }
        self.hex(bytes)
    }

    // Ends the line, and writes all out: the next one can begin.
    pub fn end(&mut self) -> Result<(), WriteFailed>
        ensures { OnOk result (self.new.at ≡ 0) }
    {
        self.byte(b'\n')?;
        self.flush()
    }
}

// A line of words alone.
pub fn say(stdout: Stdout, words: &[u8]) -> Result<(), WriteFailed> {
    let mut space = [0u8; SPACE];
    let mut line = Writer::new(stdout, &mut space);
    line.words(words)?;
    line.end()
}

// Says on standard error, in a line of words, why the program ends before its work is done.
pub fn stop(stderr: Stderr, line: &[u8]) {
    let _ = stderr.write_all(line);
}
