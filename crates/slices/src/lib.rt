// The point log over parallel slices of numbers: a slot for each record, and four words of hash. The first `count` records are
// in use; their slots rise strictly, and the origin is always understood before the first.
//
// `add` and `back` are given a point's item, for a RollForward and of a RollBackward; `find` is given a slot. A refused call
// changes nothing, and a record behind the count is written by nothing but an add. Two slices that match are rows, so
// `point_log::rows` has each call; a point that fits is put here.
#![tactic(auto)]

ghost use Rattle.std.specs.Prelude.{◌≡◌, ◌*◌, ◌<◌, true, false, IfOk, IfErr, OnOk, length, set};
ghost use Rattle.std.proofs.lemmas.List.Edits.{sets};
ghost use Rattle.point_log.specs.declared.Refusal.TheVariants.{OutOfRange};
ghost use Rattle.slices.specs.Parallel.{match, words, records, find_in, back_in, add_in, told_in};

use point_log::rows::{self, Rows};
use point_log::{Found, Refusal};
use points::{Hash, Point};

// How many words a hash has.
const WORDS: usize = 4;

// Parallel slices that match: four words of hash for each slot.
#[derive(Drop)]
struct Parallel<'a> {
    slots: &'a [u64],
    hashes: &'a [u64],
    ghost matched: { length hashes.now ≡ length slots.now * 4 },
}

impl<'a> Parallel<'a> {
    // The two slices, if they match.
    fn of(slots: &'a [u64], hashes: &'a [u64]) -> Result<Parallel<'a>, Refusal>
        ensures ok { IfOk result (λ p. (p.slots.now ≡ slots.now) × (p.hashes.now ≡ hashes.now)) }
        ensures matched { OnOk result (match slots.now hashes.now ≡ true) }
        ensures apart { IfErr result (λ e. (e ≡ OutOfRange) × (match slots.now hashes.now ≡ false)) }
    {
        if slots.len().checked_mul(WORDS) != Some(hashes.len()) {
            return Err(Refusal::OutOfRange);
        }
        Ok(Parallel { slots, hashes })
    }
}

impl<'a> Rows for Parallel<'a> {
    ghost records = { λ p. records p.slots.now p.hashes.now };

    #[tactic(auto, using(crate::proofs::RecordLaws::length_records))]
    fn len(&self) -> usize {
        self.slots.len()
    }

    #[tactic(auto, using(crate::proofs::RecordLaws::length_records, crate::proofs::RecordLaws::slots_records))]
    fn slot(&self, i: usize) -> u64 {
        self.slots[i]
    }

    #[tactic(auto, using(crate::proofs::RecordLaws::length_records, crate::proofs::RecordLaws::record_at))]
    fn record(&self, i: usize) -> Point {
        let at = i * WORDS;
        let hash = Hash {
            a: self.hashes[at],
            b: self.hashes[at + 1],
            c: self.hashes[at + 2],
            d: self.hashes[at + 3],
        };
        Point {
            slot: self.slots[i],
            hash,
        }
    }
}

// Finds the last record at or below a slot, or the origin where there is none.
#[tactic(auto, unfolding(crate::specs::Parallel::find_in))]
pub fn find(slots: &[u64], hashes: &[u64], count: usize, slot: u64) -> Result<Found, Refusal>
    ensures { result ≡ find_in slots.now hashes.now count slot }
{
    let parallel = Parallel::of(slots, hashes)?;
    rows::find(&parallel, count, slot)
}

// Cuts the log back to a point: how many records are left.
#[tactic(auto, unfolding(crate::specs::Parallel::back_in))]
pub fn back(slots: &[u64], hashes: &[u64], count: usize, item: &[u8]) -> Result<usize, Refusal>
    ensures { result ≡ back_in slots.now hashes.now count item.now }
{
    let parallel = Parallel::of(slots, hashes)?;
    rows::back(&parallel, count, item)
}

// Puts a record at a place.
fn put(slots: &mut [u64], hashes: &mut [u64], i: usize, p: Point)
    requires { (i < length slots.old) × (length hashes.old ≡ length slots.old * 4) }
    ensures slots { slots.new ≡ set slots.old i p.slot }
    ensures hashes { hashes.new ≡ sets hashes.old (i * 4) (words p.hash) }
{
    let Hash { a, b, c, d } = p.hash;
    let at = i * WORDS;
    slots[i] = p.slot;
    hashes[at..at + WORDS].copy_from_slice(&[a, b, c, d]);
}

// Adds a point: it is the last record, and there is one more.
#[tactic(auto, using(crate::proofs::CallLaws::add_apart, crate::proofs::CallLaws::add_refused, crate::proofs::CallLaws::add_put, crate::proofs::CallLaws::put_fits))]
pub fn add(
    slots: &mut [u64],
    hashes: &mut [u64],
    count: usize,
    item: &[u8],
) -> Result<usize, Refusal>
    ensures { told_in result slots.new hashes.new ≡ add_in slots.old hashes.old count item.now }
{
    let parallel = Parallel::of(slots, hashes)?;
    let point = rows::fitting(&parallel, count, item)?;
    put(slots, hashes, count, point);
    Ok(count + 1)
}
