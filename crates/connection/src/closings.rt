// The gate: why a connection was closed, and which closings a fault leaves.
ghost use Rattle.std.specs.Prelude.{◌≡◌};
ghost use Rattle.connection.specs.Closings.{closed_by, is_open, closing_number, heard_fault, fault_leaves, gate_ok};
ghost use Rattle.connection.specs.declared.Closing.TheVariants.{Of};

use crate::{Closing, Gate};
use wire::instances::{count, of_side};

// The faults: of feed, unknown protocol, wrong mode, overflow; of look and drop, bytes bad, not a message of the protocol, no row in
// the present state, bytes held after Done.
// Kept: a closing's number may be any, as the record comes from a caller, and `gate_ok` (document 01, in range) refuses the others: so a number.
pub const UNKNOWN_PROTOCOL: u64 = 11;

pub const WRONG_MODE: u64 = 12;

pub const OVERFLOW: u64 = 13;

pub const BYTES_BAD: u64 = 14;

pub const NO_MESSAGE: u64 = 15;

pub const NO_ROW: u64 = 16;

pub const AFTER_DONE: u64 = 17;

// Only the first closing is kept.
pub fn close(gate: Gate, why: Closing) -> Gate
    ensures { result ≡ closed_by gate why }
{
    match gate {
        Gate::Open => Gate::Closed(why),
        Gate::Closed(_) => gate,
    }
}

// Whether no fault has closed the connection.
pub fn is_open(gate: Gate) -> bool
    ensures { result ≡ is_open gate }
{
    matches!(gate, Gate::Open)
}

// The refusal number that a closing names.
pub fn number_of(x: Closing) -> u64
    ensures { result ≡ closing_number x }
{
    match x {
        Closing::Bare(n) => n,
        Closing::Of(n, _) => n,
    }
}

// Whether a number is a fault of what was heard, by look or drop.
#[tactic(auto, unfolding(crate::specs::Closings::among))]
pub fn heard_fault(n: u64) -> bool
    ensures { result ≡ heard_fault n }
{
    matches!(n, BYTES_BAD | NO_MESSAGE | NO_ROW | AFTER_DONE)
}

// A closing with its instance: 12 is of one in which our role is our side's, 13 and those of look and drop may be anyone's.
fn named(bundle: u64, n: u64, i: u64) -> bool
    ensures { result ≡ fault_leaves bundle (Of n i) }
{
    if count(bundle) as u64 <= i {
        return false;
    }
    n == WRONG_MODE && of_side(bundle, i as usize) || n == OVERFLOW || heard_fault(n)
}

// A closing that a fault leaves.
fn fault_leaves(bundle: u64, x: Closing) -> bool
    ensures { result ≡ fault_leaves bundle x }
{
    match x {
        Closing::Bare(n) => n == UNKNOWN_PROTOCOL,
        Closing::Of(n, i) => named(bundle, n, i),
    }
}

// Open, or closed by a closing that a fault leaves.
pub fn gate_ok(bundle: u64, g: Gate) -> bool
    ensures { result ≡ gate_ok bundle g }
{
    match g {
        Gate::Open => true,
        Gate::Closed(x) => fault_leaves(bundle, x),
    }
}
