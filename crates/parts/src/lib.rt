// The parts of a message, as build is given them: numbers, and a run of bytes for each item, list and map.
//
// One equation says whether they make a message of a form, and the arguments of the heads that are then written: a number's and a
// bool's head says it, a list's or a map's counts its elements. The specs also say that a run is counted exactly as what stands in it.
#![tactic(auto)]

pub mod given;
mod runs;

ghost use Rattle.std.specs.Prelude.{◌≡◌, ◌<◌};
ghost use Rattle.messages.specs.Inside.{form_count, form_at};
ghost use Rattle.parts.specs.Given.{numeric};
ghost use Rattle.parts.specs.Inside.{number_argument, argument_in, arguments_of};

use elements::Field;
use given::Given;
use messages::forms::MOST_FIELDS;

// False is simple value 20, and true the next.
const FALSE_ARGUMENT: u64 = 20;

// A field is given by a number, or else by a run.
pub fn is_number(f: Field) -> bool
    ensures { result ≡ numeric f }
{
    matches!(f, Field::Below(_) | Field::Bool)
}

// The argument of a field that is given by a number: below its limit, or a bool, which is 0 or 1.
fn of_number(f: Field, v: u64) -> Option<u64>
    ensures { result ≡ number_argument f v }
{
    match f {
        Field::Below(limit) if v < limit => Some(v),
        Field::Bool if v < 2 => Some(FALSE_ARGUMENT + v),
        _ => None,
    }
}

// The argument of a field: it is given by number n, or by run r.
#[tactic(auto, unfolding(crate::specs::Inside::argument_of))]
fn argument(f: Field, given: Given<'_>, n: usize, r: usize) -> Option<u64>
    ensures { result ≡ argument_in given.entry f n r }
{
    if is_number(f) {
        of_number(f, *given.numbers.get(n)?)
    } else {
        runs::of_run(f, given.run(r)?)
    }
}

// The arguments of all fields of the form in a row, in their order, if the parts make a message of it; 0 where there is no field. The
// fields are gone through from left to right, each with the next number or the next run, and none is left over.
pub fn judge(row: usize, given: Given<'_>) -> Option<[u64; MOST_FIELDS]>
    requires { row < form_count }
    ensures { result ≡ arguments_of given.entry (form_at row).fields }
{
    let mut arguments = [0; MOST_FIELDS];
    let mut n = 0;
    let mut r = 0;
    for i in 0..messages::forms::fields(row) {
        let f = messages::forms::field_at(row, i);
        arguments[i] = argument(f, given, n, r)?;
        if is_number(f) {
            n += 1;
        } else {
            r += 1;
        }
    }
    if n == given.numbers.len() && r == given.runs {
        Some(arguments)
    } else {
        None
    }
}
