// The forms as one table, searched by protocol and kind.
//
// The table is that of document 01 and of K1: what is found is the form of this kind, and none is found exactly if the protocol has none.
ghost use Rattle.std.specs.Prelude.{◌≡◌, ◌<◌, ◌≤◌, length, get_or, map};
ghost use Rattle.elements.specs.declared.Field.TheVariants.{Item};
ghost use Rattle.rows.specs.Inside.{first_in, count_in};
ghost use Rattle.messages.specs.Forms.{forms};
ghost use Rattle.messages.specs.Inside.{all_forms, form_count, form_at, meant, most_fields, Finds};

use elements::{Element, FAILURE_LIMIT, Field, VERSION_LIMIT, WORD_LIMIT};
use rows::{PROTOCOLS, Protocol, number_of};

// A form: its message's number, and the fields behind it.
struct Form {
    kind: u64,
    fields: &'static [Field],
}

const ITEM: Field = Field::Item;

const ITEMS: Field = Field::List(Element::Item);

const PAIRS: Field = Field::List(Element::Pair);

const VERSIONS: Field = Field::List(Element::Version);

const WORD: Field = Field::Below(WORD_LIMIT);

const BOOL: Field = Field::Bool;

const VERSION: Field = Field::Below(VERSION_LIMIT);

const FAILURE: Field = Field::Below(FAILURE_LIMIT);

// No form has more fields.
pub const MOST_FIELDS: usize = 3;

// A message's number, and its fields.
macro_rules! form {
    ($kind:literal $(, $field:ident)*) => {
        Form { kind: $kind, fields: &[$($field),*] }
    };
}

const FORM_COUNT: usize = 40;

static FORMS: [Form; FORM_COUNT] = [
    // Handshake
    form!(0, VERSIONS), // Propose
    form!(1, VERSION, ITEM), // Accept
    form!(2, ITEM), // Refuse
    // Chain-Sync
    form!(0), // RequestNext
    form!(1), // AwaitReply
    form!(2, ITEM, ITEM), // RollForward
    form!(3, ITEM, ITEM), // RollBackward
    form!(4, ITEMS), // FindIntersect
    form!(5, ITEM, ITEM), // IntersectFound
    form!(6, ITEM), // IntersectNotFound
    form!(7), // Done
    // Block-Fetch
    form!(0, ITEM, ITEM), // RequestRange
    form!(1), // ClientDone
    form!(2), // StartBatch
    form!(3), // NoBlocks
    form!(4, ITEM), // Block
    form!(5), // BatchDone
    // TxSubmission
    form!(6), // Init
    form!(0, BOOL, WORD, WORD), // RequestTxIds
    form!(1, PAIRS), // ReplyTxIds
    form!(2, ITEMS), // RequestTxs
    form!(3, ITEMS), // ReplyTxs
    form!(4), // Done
    // Keep-alive
    form!(0, WORD), // KeepAlive
    form!(1, WORD), // Response
    form!(2), // Done
    // Local TxSubmission
    form!(0, ITEM), // Submit
    form!(1), // Accept
    form!(2, ITEM), // Reject
    form!(3), // Done
    // Local State Query
    form!(0, ITEM), // Acquire
    form!(8), // Acquire of no item
    form!(1), // Acquired
    form!(2, FAILURE), // Failure
    form!(3, ITEM), // Query
    form!(4, ITEM), // Result
    form!(6, ITEM), // ReAcquire
    form!(9), // ReAcquire of no item
    form!(5), // Release
    form!(7), // Done
];

// By protocol: its first row, and its number of rows.
const START: [u8; PROTOCOLS] = [0, 3, 11, 17, 23, 26, 30];

const COUNT: [u8; PROTOCOLS] = [3, 8, 6, 6, 3, 4, 10];

fn first(p: Protocol) -> usize
    ensures { result ≡ first_in forms p }
{
    number_of(START, p)
}

fn count(p: Protocol) -> usize
    ensures { result ≡ count_in forms p }
{
    number_of(COUNT, p)
}

// The forms, one after the other.
fn table() -> &'static [Form]
    ensures { (length result.now ≡ form_count) × (map meant result.now ≡ all_forms) }
{
    &FORMS
}

// The row of a kind.
pub fn find(p: Protocol, kind: u64) -> Option<usize>
    ensures { Finds p kind result }
{
    let table = table();
    let start = first(p);
    for i in start..start + count(p) {
        if table[i].kind == kind {
            return Some(i);
        }
    }
    None
}

// How many fields row i has.
pub fn fields(i: usize) -> usize
    requires { i < form_count }
    ensures { (result ≡ length (form_at i).fields) × (result ≤ most_fields) }
{
    table()[i].fields.len()
}

// Field j of row i.
pub fn field_at(i: usize, j: usize) -> Field
    requires { (i < form_count) × (j < length (form_at i).fields) }
    ensures { result ≡ get_or (form_at i).fields j Item }
{
    table()[i].fields[j]
}
