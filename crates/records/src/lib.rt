// The point log over a slice of records. The first `count` records are in use; their slots rise strictly, and the origin is always
// understood before the first. A slice of records is rows, so `point_log::rows` has each call; a point that fits is put here.
#![tactic(auto)]

ghost use Rattle.std.specs.Prelude.{◌≡◌};
ghost use Rattle.point_log.specs.Log.{find_of, back_of, told, add_of};

use point_log::{Found, Refusal, rows};
use points::Point;

// Finds the last record at or below a slot, or the origin where there is none.
pub fn find(run: &[Point], count: usize, slot: u64) -> Result<Found, Refusal>
    ensures { result ≡ find_of run.now count slot }
{
    rows::find(&run, count, slot)
}

// Cuts the log back to a point: how many records are left.
pub fn back(run: &[Point], count: usize, item: &[u8]) -> Result<usize, Refusal>
    ensures { result ≡ back_of run.now count item.now }
{
    rows::back(&run, count, item)
}

// Adds a point: it is the last record, and there is one more.
#[tactic(auto, unfolding(point_log::specs::Log::add_of))]
pub fn add(run: &mut [Point], count: usize, item: &[u8]) -> Result<usize, Refusal>
    ensures { told result run.new ≡ add_of run.old count item.now }
{
    let before: &[Point] = run;
    let point = rows::fitting(&before, count, item)?;
    run[count] = point;
    Ok(count + 1)
}
