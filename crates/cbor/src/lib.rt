// Measuring one CBOR data item, in a view of bytes that may lie in a ring. The verdict is that of the crate `item`. A walk
// is a value that can be stopped and taken up again with more bytes: it then comes to what a walk from the start comes to,
// and has counted the same heads.
//
// The walk goes by heads: where nine bytes lie in one piece the crate `usual` tells what a usual head does, of all others
// the crate `moves`. Its hot state is in the scalars of one loop, and the levels around are in lent arrays.
#![tactic(auto)]

ghost use Rattle.std.specs.Prelude.{◌≡◌, ◌≤◌, length, drop};
ghost use Rattle.item.specs.Grammar.{nesting};
ghost use Rattle.item.specs.Verdict.{judge, start, verdict};
ghost use Rattle.ring.specs.Inside.{seen};
ghost use Rattle.cbor.specs.Inside.Walk.{Sound, Resumed, walk_of, first_at};
ghost use Rattle.cbor.specs.Inside.Stops.{stopped_at};

use item::{NESTING, NotWhole, Verdict};
use moves::{HALF, ITEMS, Level, Move, Wanting, any};
use ring::view::View;
use usual::{Piece, Quick, piece_of, usual};

// As many levels as an item may be within, and one for a string of chunks, which counts for none.
const LEVELS: usize = NESTING + 1;

// A walk under way: its place, the bytes of a string that are to be skipped there, the heads so far, the level that it
// is in, how many levels are around that, and the kinds and counts of these, the outermost first.
// Kept: two arrays: with one of levels an item like a block takes 0.90 of plain C's time, not 0.75, and one string up to 4.3 times it, over its bar of 4.2.
#[derive(Clone, Copy)]
pub struct Walk {
    pub at: usize,
    pub skip: u64,
    pub heads: usize,
    pub level: Level,
    pub depth: usize,
    pub kinds: [u8; LEVELS],
    pub counts: [u64; LEVELS],
}

// The verdict, and the walk as far as it came.
#[derive(Clone, Copy)]
pub struct Measured {
    pub verdict: Verdict,
    pub walk: Walk,
}

// Where a walk stopped: the verdict, and what the walk is then but for the levels around.
#[derive(Clone, Copy)]
pub struct Stop {
    pub verdict: Verdict,
    pub at: usize,
    pub skip: u64,
    pub heads: usize,
    pub level: Level,
    pub depth: usize,
}

impl Stop {
    // The verdict, and the walk that stopped, with the levels around it.
    fn within(self, kinds: [u8; LEVELS], counts: [u64; LEVELS]) -> Measured
        ensures { (result.verdict ≡ self.verdict) × (result.walk ≡ stopped_at self kinds counts) }
    {
        Measured {
            verdict: self.verdict,
            walk: Walk {
                at: self.at,
                skip: self.skip,
                heads: self.heads,
                level: self.level,
                depth: self.depth,
                kinds,
                counts,
            },
        }
    }
}

// The walk that begins at the front, for one item.
pub fn begin() -> Walk
    ensures { (result ≡ first_at 0 nesting) × (result.at ≡ 0) × Sound result }
{
    Walk {
        at: 0,
        skip: 0,
        heads: 0,
        level: Level {
            kind: ITEMS,
            count: 1,
        },
        depth: 0,
        kinds: [ITEMS; LEVELS],
        counts: [0; LEVELS],
    }
}

// The walk of these parts on the bytes of the view, up to where it stops; the levels around change where they lie. It
// is one long loop, since its state stays in scalars only within one function: a level that wants nothing is left; else a
// usual head is taken; else any head, after the piece that its place is in was found.
fn advance(
    v: View<'_>,
    mut at: usize,
    mut heads: usize,
    level: Level,
    mut depth: usize,
    kinds: &mut [u8; LEVELS],
    counts: &mut [u64; LEVELS],
) -> Stop
    requires { (at ≤ v.len) × Sound (walk_of at 0 heads level.kind level.count depth kinds.old counts.old) }
    ensures { Resumed (seen v.entry) (walk_of at 0 heads level.kind level.count depth kinds.old counts.old)
        result.verdict (stopped_at result kinds.new counts.new) }
{
    // Kind and count apart, so that both stay in scalars. Below a level is made of the two wherever one is handed on: one
    // that is handed on whole goes by way of memory, with what lies between its parts.
    let Level {
        mut kind,
        mut count,
    } = level;
    let mut z = Piece {
        plus: 0,
        minus: 0,
        lim: 0,
    };
    // Kept: no `for`, since a head says where the next begins, and no list is gone along.
    loop {
        if count == 0 {
            if kind == ITEMS {
                if depth == 0 {
                    return Stop {
                        verdict: Ok(at),
                        at,
                        skip: 0,
                        heads,
                        level: Level { kind, count },
                        depth,
                    };
                }
                depth -= 1;
                kind = kinds[depth];
                count = counts[depth];
                continue;
            }
        } else if at < z.lim {
            match usual(v, at, at + z.plus - z.minus, depth) {
                Some(Quick::Past(p)) => {
                    at = p;
                    count -= 1;
                    heads += 1;
                    continue;
                }
                Some(Quick::Asks(p, c)) => {
                    kinds[depth] = kind;
                    counts[depth] = count - 1;
                    depth += 1;
                    kind = ITEMS;
                    count = c;
                    at = p;
                    heads += 1;
                    continue;
                }
                Some(Quick::Opens(p, k)) => {
                    kinds[depth] = kind;
                    counts[depth] = count - 1;
                    depth += 1;
                    kind = k;
                    count = HALF;
                    at = p;
                    heads += 1;
                    continue;
                }
                Some(Quick::Ends(p)) => {
                    if (Level { kind, count }).breaks() {
                        kind = ITEMS;
                        count = 0;
                        at = p;
                        heads += 1;
                        continue;
                    }
                }
                None => {}
            }
        }
        z = piece_of(v.bytes.len(), v.from, v.len, at);
        let wanting = Wanting {
            level: Level { kind, count },
            depth,
        };
        match any(v, at, wanting) {
            Move::Stay(p, l) => {
                at = p;
                kind = l.kind;
                count = l.count;
                heads += 1;
            }
            Move::Down(p, l, i) => {
                kinds[depth] = l.kind;
                counts[depth] = l.count;
                depth += 1;
                kind = i.kind;
                count = i.count;
                at = p;
                heads += 1;
            }
            Move::Skip(skip, l) => {
                return Stop {
                    verdict: Err(NotWhole::Incomplete),
                    at: v.len,
                    skip,
                    heads: heads + 1,
                    level: Level {
                        kind: l.kind,
                        count: l.count,
                    },
                    depth,
                };
            }
            Move::Fault(p) => {
                return Stop {
                    verdict: Err(NotWhole::Bad(p)),
                    at,
                    skip: 0,
                    heads,
                    level: Level { kind, count },
                    depth,
                };
            }
            Move::Lack => {
                return Stop {
                    verdict: Err(NotWhole::Incomplete),
                    at,
                    skip: 0,
                    heads,
                    level: Level { kind, count },
                    depth,
                };
            }
        }
    }
}

// Takes a walk up again on the bytes of the view: the verdict, and the walk as far as it came.
pub fn resume(v: View<'_>, w: Walk) -> Measured
    requires { (w.at ≤ v.len) × Sound w }
    ensures { Resumed (seen v.entry) w result.verdict result.walk }
{
    let there = (v.len - w.at) as u64;
    let mut kinds = w.kinds;
    let mut counts = w.counts;
    if there < w.skip {
        let r = Stop {
            verdict: Err(NotWhole::Incomplete),
            at: v.len,
            skip: w.skip - there,
            heads: w.heads,
            level: w.level,
            depth: w.depth,
        };
        return r.within(kinds, counts);
    }
    let at = w.at + (w.skip as usize);
    let r = advance(v, at, w.heads, w.level, w.depth, &mut kinds, &mut counts);
    r.within(kinds, counts)
}

// The verdict on the item that begins at a place of the view, within the nesting d.
pub fn item_at(v: View<'_>, at: usize, d: usize) -> Verdict
    requires { (at ≤ v.len) × (d ≤ nesting) }
    ensures { result ≡ judge (drop at (seen v.entry)) at (start d) }
{
    let mut kinds = [ITEMS; LEVELS];
    let mut counts = [0; LEVELS];
    let first = Level {
        kind: ITEMS,
        count: 1,
    };
    advance(v, at, 0, first, NESTING - d, &mut kinds, &mut counts).verdict
}

// The verdict on the bytes of the view.
pub fn measure(v: View<'_>) -> Verdict
    ensures { result ≡ verdict (seen v.entry) }
{
    item_at(v, 0, NESTING)
}

// The verdict on a plain slice.
pub fn measure_slice(s: &[u8]) -> Verdict
    ensures { result ≡ verdict s.now }
{
    measure(View::all(s))
}
