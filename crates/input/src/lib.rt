// Standard input, in runs or line by line. A read that fails is told apart from the end of the input.
#![tactic(auto)]

ghost use Rattle.std.specs.Prelude.{◌≡◌, ◌≤◌, length, Bool, IfOk, Err};
ghost use Rattle.io.specs.Counts.{IsPrefixLen};

use script::Word;
use std::io::{Read, Stdin};

// Standard input could not be read, or there was no room for what it has.
#[derive(Clone, Copy, Debug, PartialEq, Eq)]
pub struct ReadFailed;

// A line is longer than was asked for.
#[derive(Clone, Copy, Debug, PartialEq, Eq)]
pub struct TooLong;

// Why lines stop before the input ends: it could not be read, or what a line is answered could not be written.
#[derive(Clone, Copy, Debug, PartialEq, Eq)]
pub enum Stop {
    Unread,
    Unwritten,
}

impl From<ReadFailed> for Stop {
    ghost use Rattle.input.specs.declared.Stop.TheVariants.{Unread};

    ghost from_gives = { λ _ e. e ≡ Unread };

    fn from(_: ReadFailed) -> Stop {
        Stop::Unread
    }
}

// Reads some bytes to the front of a space, and answers how many: none at the end of the input.
pub fn read(mut stdin: Stdin, space: &mut [u8]) -> Result<usize, ReadFailed>
    ensures { IfOk result (λ count. IsPrefixLen count space.new) }
{
    stdin.read(space).map_err(|_| ReadFailed)
}

// A reader of lines of at most so many characters, fewer than the space. What was read and is not passed yet stands in
// the space from a place on, up to another, cut wherever the reads cut it; the line at its front ends at its line feed, or
// with all of it while none has come. Of a line that is longer than is asked for only that is kept.
// Kept: a space with places beside, and no `Vec`, since nothing is allocated.
#[derive(Drop)]
pub struct Reader<'a> {
    stdin: Stdin,
    space: &'a mut [u8],
    most: usize,
    from: usize,
    end: usize,
    to: usize,
    long: bool,
}

impl Reader<'_> {
    // Before the first read.
    pub fn new(stdin: Stdin, space: &mut [u8], most: usize) -> Reader<'_> {
        Reader {
            stdin,
            space,
            most,
            from: 0,
            end: 0,
            to: 0,
            long: false,
        }
    }

    // Goes to the next line, and answers whether there is one.
    //
    // A proved loop has to end, and nothing says that the input does. So the loop counts its reads, up to a number that
    // no run uses up.
    pub fn advance(&mut self) -> Result<bool, ReadFailed> {
        if self.whole() {
            self.long = false;
            self.see(self.end.saturating_add(1), self.to);
        }
        for _ in 0..u64::MAX {
            if self.whole() {
                return Ok(true);
            }
            if !self.more()? {
                return Ok(false);
            }
        }
        Ok(false)
    }

    // The line, without its line feed, as a part of the space.
    pub fn line(&mut self) -> Result<&mut [u8], TooLong>
        ensures { IfOk result (λ line. length line.now ≤ length self.old.space.now) }
    {
        if self.long {
            return Err(TooLong);
        }
        let from = self.from;
        let n = self.end.saturating_sub(from);
        let line = Word::within(self.space, from, n);
        Ok(&mut self.space[line.from..line.to])
    }

    // Whether the line is whole.
    fn whole(&self) -> bool {
        self.end < self.to
    }

    // What was read stands from a place on, up to another: where its first line ends.
    fn see(&mut self, from: usize, to: usize) {
        let read = Word { from: 0, to }.text(self.space);
        let line = Word::part(read, from, b'\n');
        self.long |= self.most < line.to.saturating_sub(from);
        self.from = from;
        self.end = line.to;
        self.to = to;
    }

    // Reads more where the line is not whole yet, and answers whether there was more.
    fn more(&mut self) -> Result<bool, ReadFailed> {
        let n = self.shift();
        let count = read(self.stdin, &mut self.space[n..])?;
        if count == 0 {
            return self.last(n);
        }
        self.see(0, n + count);
        Ok(true)
    }

    // Moves what there is of the line to the front, and answers how much; nothing of a line that is too long.
    fn shift(&mut self) -> usize
        ensures { result ≤ length self.new.space.now }
    {
        let from = self.from;
        let n = self.to.saturating_sub(from);
        let line = Word::within(self.space, from, n);
        self.long |= self.most < n;
        let kept = if self.long { 0 } else { line.to - line.from };
        self.space.copy_within(line.from..line.from + kept, 0);
        self.from = 0;
        self.end = kept;
        self.to = kept;
        kept
    }

    // The last line may lack its line feed, and gets one. In a full space nothing could be read.
    fn last(&mut self, n: usize) -> Result<bool, ReadFailed> {
        if self.space.len() <= n {
            return Err(ReadFailed);
        }
        if n == 0 && !self.long {
            return Ok(false);
        }
        self.space[n] = b'\n';
        self.see(0, n + 1);
        Ok(true)
    }
}

// Hands each line to `answer` in turn, up to the end of the input, or as far as `answer` says that what it wrote was written.
// Of a line that is too long it is told so, and given no byte.
//
// A proved loop has to end, and nothing says that the input does. So the loop has more turns than any run uses up.
// Kept: a line and whether it is too long, since a closure that takes a `Result` of a `&mut` gets no proof through a bound.
pub fn each_line<E: Drop, F: FnMut(&mut [u8], bool) -> Result<(), E>>(
    stdin: Stdin,
    space: &mut [u8],
    most: usize,
    mut answer: F,
) -> Result<(), Stop>
    requires { F.IsAlwaysCallable answer }
    ensures { result ≡ Err Stop.Unwritten → (f : F) × (x : _) × (long : Bool) × (e : E) × (y : _) × (g : F) × F.step f x long (Err e) y g }
{
    let mut reader = Reader::new(stdin, space, most);
    for _ in 0..u64::MAX {
        if !reader.advance()? {
            break;
        }
        let answered = match reader.line() {
            Ok(line) => answer(line, false),
            Err(TooLong) => answer(&mut [], true),
        };
        if answered.is_err() {
            return Err(Stop::Unwritten);
        }
    }
    Ok(())
}
