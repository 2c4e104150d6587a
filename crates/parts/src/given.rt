// What is given for the fields of a message.
ghost use Rattle.std.specs.Prelude.{◌≡◌, ◌≤◌, ◌<◌, true, false, MatchOption};
ghost use Rattle.parts.specs.Given.{all_given};

// Numbers, and so many runs, none, the first or both, for the fields in their order.
#[derive(Clone, Copy)]
pub struct Given<'a> {
    pub numbers: &'a [u64],
    pub runs: usize,
    pub first: &'a [u8],
    pub second: &'a [u8],
}

impl<'a> Given<'a> {
    ghost use Rattle.parts.specs.Inside.{Holds, run_in};

    // At most two runs are given, and what is lent above their count is empty; or it is no such thing.
    pub fn of(numbers: &'a [u64], runs: u64, first: &'a [u8], second: &'a [u8]) -> Option<Given<'a>>
        ensures { MatchOption result (all_given runs first.now second.now ≡ false)
            (λ g. (all_given runs first.now second.now ≡ true) × Holds g numbers.now runs first.now second.now) }
    {
        let empty = (1 <= runs || first.is_empty()) && (2 <= runs || second.is_empty());
        if runs <= 2 && empty {
            Some(Given {
                numbers,
                runs: runs as usize,
                first,
                second,
            })
        } else {
            None
        }
    }

    // Run r, if there is one.
    pub fn run(self, r: usize) -> Option<&'a [u8]>
        ensures { MatchOption result (self.entry.runs ≤ r) (λ run. (r < self.entry.runs) × (run.now ≡ run_in self.entry r)) }
    {
        if r < self.runs {
            Some(if r == 0 { self.first } else { self.second })
        } else {
            None
        }
    }
}
