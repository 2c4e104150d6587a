// The point log: what it is, in `specs`, however its records are lent; why a call of it is refused; and in `rows` its calls, over
// whatever has the records. Crate `slices` has them over parallel slices of numbers, `records` over a slice of records.
#![tactic(auto)]

ghost use Rattle.std.specs.Prelude.{◌≡◌};
ghost use Rattle.point_log.specs.Log.{number_of};

pub mod rows;

use points::{NotAPoint, Place};

// Why a call is refused.
#[derive(Clone, Copy, Debug, PartialEq, Eq)]
pub enum Refusal {
    // The count is above the records, or their slots do not rise, or what is lent does not make records.
    OutOfRange,
    // The item is not exactly one point.
    NotAPoint,
    // The origin is added, or a slot that is not above the last.
    NotAbove,
    // The point to cut back to is not logged.
    NotLogged,
    // There is no room for one more.
    Full,
}

impl Refusal {
    // The number of a refusal.
    pub fn number(self) -> u64
        ensures { result ≡ number_of self }
    {
        match self {
            Refusal::OutOfRange => 23,
            Refusal::NotAPoint => 29,
            Refusal::NotAbove => 30,
            Refusal::NotLogged => 31,
            Refusal::Full => 32,
        }
    }
}

impl From<NotAPoint> for Refusal {
    ghost use Rattle.point_log.specs.declared.Refusal.TheVariants as refusal;

    ghost from_gives = { λ _ e. e ≡ refusal.NotAPoint };

    fn from(_e: NotAPoint) -> Refusal {
        Refusal::NotAPoint
    }
}

// What find answers: how many records there are up to the one found, 0 for the origin; and the place found.
#[derive(Clone, Copy, Debug, PartialEq, Eq)]
pub struct Found {
    pub upto: usize,
    pub place: Place,
}
