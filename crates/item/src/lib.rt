// One CBOR data item: what a run of bytes is, whole, incomplete or bad (document 01, RFC 8949).
//
// The specs say what a well-formed item within a nesting is and what the verdict on any run of bytes is; the proofs
// show that the two agree on every run. The code that comes to the verdict is the crate `cbor`.
#![tactic(auto)]

// Nesting at most 16 (house).
pub const NESTING: usize = 16;

// Why a run of bytes is not an item and what follows it: no item is possible after the byte at this place; or one is still possible.
#[derive(Clone, Copy, PartialEq, Eq)]
pub enum NotWhole {
    Bad(usize),
    Incomplete,
}

// The verdict: an item of so many bytes, or why there is none.
pub type Verdict = Result<usize, NotWhole>;
