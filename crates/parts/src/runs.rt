// A run of bytes that is given for a field: exactly one item, or the elements of a list or a map end to end.
//
// Each run is walked once.
ghost use Rattle.std.specs.Prelude.{◌≡◌};
ghost use Rattle.parts.specs.Counting.{count_of};
ghost use Rattle.parts.specs.Inside.{one_of, run_argument};

use elements::{Element, Extent, Field, IN_LIST, IN_MESSAGE};
use ring::view::View;

// How many elements the run has, if it is elements end to end.
fn count(e: Element, run: &[u8]) -> Option<u64>
    ensures { result ≡ count_of e run.now }
{
    let (k, _) = elements::walk(View::all(run), IN_LIST, e, Extent::Rest, 0)?;
    Some(k)
}

// The run is exactly one item, which has no head and so no argument.
fn one_item(run: &[u8]) -> Option<u64>
    ensures { result ≡ one_of run.now }
{
    let q = elements::item_end(View::all(run), 0, IN_MESSAGE)?;
    (q == run.len()).then_some(0)
}

// The argument of a field that is given by a run.
pub fn of_run(f: Field, run: &[u8]) -> Option<u64>
    ensures { result ≡ run_argument f run.now }
{
    match f {
        Field::Item => one_item(run),
        Field::List(e) => count(e, run),
        _ => None,
    }
}
