// The calls of a log over rows: whatever has records, by their places.
ghost use Rattle.std.specs.Prelude.{◌≡◌, ◌≤◌, ◌<◌, List, true, false, IfOk, IfErr, OnOk, length, get_or};
ghost use Rattle.points.specs.declared.Point.{Point};
ghost use Rattle.points.specs.declared.Place.TheVariants.{Block};
ghost use Rattle.point_log.specs.declared.Refusal.TheVariants.{OutOfRange};
ghost use Rattle.point_log.specs.Log.{empty, slots_of, rises_to, in_range, place_at, at, upto_of, find_of, back_to, back_of, above, fit_to, fit_of};

use crate::{Found, Refusal};
use points::{Place, Point, read_point};

// Rows of records. A search looks at slots alone, so `slot` has its own way to them.
pub trait Rows {
    ghost records: { Self → List Point };

    fn len(&self) -> usize
        ensures { result ≡ length (records self.now) };

    fn slot(&self, i: usize) -> u64
        requires { i < length (records self.now) }
        ensures { result ≡ get_or (slots_of (records self.now)) i 0 };

    fn record(&self, i: usize) -> Point
        requires { i < length (records self.now) }
        ensures { result ≡ get_or (records self.now) i empty };
}

// A slice of records is rows.
impl<'a> Rows for &'a [Point] {
    ghost records = { λ run. run.now };

    fn len(&self) -> usize {
        (*self).len()
    }

    fn slot(&self, i: usize) -> u64 {
        self[i].slot
    }

    fn record(&self, i: usize) -> Point {
        self[i]
    }
}

// Whether the slots of the first n records rise. Of a log in range all are compared, so the loop has no early end and no branch.
fn rises<R: Rows>(rows: &R, n: usize) -> bool
    requires { n ≤ length (R.records rows.now) }
    ensures { result ≡ rises_to (slots_of (R.records rows.now)) n }
{
    let mut good = true;
    for i in 1..n {
        good = good & (rows.slot(i - 1) < rows.slot(i));
    }
    good
}

// A log in range: rows of which the first `count` are in use, and their slots rise strictly.
#[derive(Drop)]
struct Log<'a, R: Rows> {
    rows: &'a R,
    count: usize,
    ghost ranged: { in_range (R.records rows.now) count ≡ true },
}

impl<'a, R: Rows> Log<'a, R> {
    // The log of the first `count` rows, if it is in range.
    fn of(rows: &'a R, count: usize) -> Result<Log<'a, R>, Refusal>
        ensures ok { IfOk result (λ log. (log.rows.now ≡ rows.now) × (log.count ≡ count)) }
        ensures in_range { OnOk result (in_range (R.records rows.now) count ≡ true) }
        ensures out_of_range { IfErr result (λ e. (e ≡ OutOfRange) × (in_range (R.records rows.now) count ≡ false)) }
    {
        if rows.len() < count {
            return Err(Refusal::OutOfRange);
        }
        if !rises(rows, count) {
            return Err(Refusal::OutOfRange);
        }
        Ok(Log { rows, count })
    }

    // How many records are at or below a slot. By halves: looked at are at most ⌊log2 n⌋ + 1 of n.
    // Kept: the search is no `partition_point`, for rows are no slice, and its measure is `looks`, so that `as_log` says how many it looks at.
    fn upto(&self, slot: u64) -> usize
        ensures { result ≡ upto_of (slots_of (R.records self.now.rows.now)) self.now.count slot }
    {
        let mut low: usize = 0;
        let mut high = self.count;
        while low < high {
            let mid = low + (high - low) / 2;
            if self.rows.slot(mid) <= slot {
                low = mid + 1;
            } else {
                high = mid;
            }
        }
        low
    }

    // The last of the first k records, or the origin, which is before the first.
    fn place_at(&self, k: usize) -> Place
        requires { k ≤ self.now.count }
        ensures { result ≡ place_at (R.records self.now.rows.now) k }
    {
        if k == 0 {
            return Place::Origin;
        }
        Place::Block(self.rows.record(k - 1))
    }

    // The last record at or below a slot, or the origin where there is none.
    #[tactic(auto, using(crate::proofs::SearchLaws::upto_within))]
    fn find(&self, slot: u64) -> Found
        ensures { result ≡ at (R.records self.now.rows.now) (upto_of (slots_of (R.records self.now.rows.now)) self.now.count slot) }
    {
        let upto = self.upto(slot);
        let place = self.place_at(upto);
        Found { upto, place }
    }

    // How many records there are up to a point.
    fn cut(&self, p: Point) -> Result<usize, Refusal>
        ensures { result ≡ back_to (R.records self.now.rows.now) self.now.count (Block p) }
    {
        let found = self.find(p.slot);
        match found.place {
            Place::Block(last) if last == p => Ok(found.upto),
            _ => Err(Refusal::NotLogged),
        }
    }

    // Whether a slot is above that of the last record.
    fn above(&self, slot: u64) -> bool
        ensures { result ≡ above (slots_of (R.records self.now.rows.now)) self.now.count slot }
    {
        if self.count == 0 {
            return true;
        }
        self.rows.slot(self.count - 1) < slot
    }

    // A point that can be put behind the last record.
    fn fit(&self, p: Point) -> Result<Point, Refusal>
        ensures { result ≡ fit_to (R.records self.now.rows.now) self.now.count (Block p) }
    {
        if !self.above(p.slot) {
            return Err(Refusal::NotAbove);
        }
        if self.count < self.rows.len() {
            return Ok(p);
        }
        Err(Refusal::Full)
    }
}

// Finds the last record at or below a slot, or the origin where there is none.
#[tactic(auto, unfolding(crate::specs::Log::find_of))]
pub fn find<R: Rows>(rows: &R, count: usize, slot: u64) -> Result<Found, Refusal>
    ensures { result ≡ find_of (R.records rows.now) count slot }
{
    let log = Log::of(rows, count)?;
    Ok(log.find(slot))
}

// Cuts the log back to the point that an item has: how many records are left.
#[tactic(auto, unfolding(crate::specs::Log::back_of))]
pub fn back<R: Rows>(rows: &R, count: usize, item: &[u8]) -> Result<usize, Refusal>
    ensures { result ≡ back_of (R.records rows.now) count item.now }
{
    let log = Log::of(rows, count)?;
    match read_point(item)? {
        Place::Origin => Ok(0),
        Place::Block(p) => log.cut(p),
    }
}

// What is to be put behind the last record, so that the point that an item has is added.
#[tactic(auto, unfolding(crate::specs::Log::fit_of))]
pub fn fitting<R: Rows>(rows: &R, count: usize, item: &[u8]) -> Result<Point, Refusal>
    ensures fits { result ≡ fit_of (R.records rows.now) count item.now }
    ensures room { OnOk result (count < length (R.records rows.now)) }
{
    let log = Log::of(rows, count)?;
    match read_point(item)? {
        Place::Origin => Err(Refusal::NotAbove),
        Place::Block(p) => log.fit(p),
    }
}
