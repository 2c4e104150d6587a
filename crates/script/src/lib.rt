// The words of a script's line, as docs/REPLAY.md fixes them: numbers and runs of bytes.
//
// A line is a slice without its line feed. A word is a part of it, up to a space or the end; where there is no word any
// more, it is the empty one at the end, which is nothing that a call takes. Runs are made bytes in place: two digits of
// the line become the byte at the front of them, so that a line needs no second buffer.
#![tactic(auto)]

pub mod numbers;
pub mod runs;

ghost use Rattle.std.specs.Prelude.{◌≡◌, ◌≤◌, length};
ghost use Rattle.script.specs.Inside.{LiesIn};

// A part of a line: from a place on, up to another.
// Kept: two places and no slice, since `runs` makes a word bytes in place, and so changes the line that slices would borrow.
#[derive(Clone, Copy)]
pub struct Word {
    pub from: usize,
    pub to: usize,
}

impl Word {
    // The first word of a line.
    pub fn first(line: &[u8]) -> Word
        ensures { LiesIn line.now result }
    {
        Word::part(line, 0, b' ')
    }

    // The part from a place on, up to the first such byte. Behind the end it is empty.
    pub fn part(line: &[u8], from: usize, by: u8) -> Word
        ensures lies { LiesIn line.now result }
        ensures begins { from ≤ length line.now → result.from ≡ from }
    {
        let n = line.len();
        if n < from {
            return Word { from: n, to: n };
        }
        let rest = &line[from..];
        match rest.iter().position(|b| *b == by) {
            Some(k) => Word { from, to: from + k },
            None => Word { from, to: n },
        }
    }

    // The n bytes from a place on, as far as the line has them.
    pub fn within(line: &[u8], from: usize, n: usize) -> Word
        ensures { LiesIn line.now result }
    {
        let all = line.len();
        let from = from.min(all);
        Word {
            from,
            to: from + n.min(all - from),
        }
    }

    // The word after this one.
    pub fn next(self, line: &[u8]) -> Word
        ensures { LiesIn line.now result }
    {
        let n = line.len();
        if self.to < n {
            return Word::part(line, self.to + 1, b' ');
        }
        Word { from: n, to: n }
    }

    // Whether the word is the line's last.
    pub fn last(self, line: &[u8]) -> bool {
        self.to == line.len()
    }

    // The bytes of the word; none of what is no part of the line.
    pub fn text<'a>(self, line: &'a [u8]) -> &'a [u8] {
        line.get(self.from..self.to).unwrap_or(b"")
    }

    // Whether the word is one that is known.
    pub fn is(self, line: &[u8], name: &[u8]) -> bool {
        self.text(line) == name
    }
}
