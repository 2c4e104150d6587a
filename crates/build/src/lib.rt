// Building a message: its bytes from its kind, its numbers and a run of bytes for each item, list and map.
//
// One equation says the answer and every byte of the lent buffer, on every input. The specs also say that what is made
// of parts reads back as the message that says them.
#![tactic(auto)]

ghost use Rattle.std.specs.Prelude.{◌≡◌, ◌<◌, ℕ, List, true, IfSome};
ghost use Rattle.parts.specs.Given.{all_given};
ghost use Rattle.messages.specs.Inside.{form_count, form_at};
ghost use Rattle.build.specs.Building.{told, handed, build_of};
ghost use Rattle.build.specs.Inside.{number_of, answer, made_of, AreGiven};

use layout::message::Message;
use parts::given::Given;

// The number; where it is 0, how long the message is.
// Kept: the number in front, which README promises of every answer (`build_of`).
#[derive(Clone, Copy)]
pub struct Built {
    pub number: u64,
    pub len: usize,
}

// Why no message is made: the bundle is unknown, or has no such instance; the parts make none; or the buffer is shorter than it.
#[derive(Clone, Copy)]
enum Refusal {
    UnknownBundle,
    NoInstance,
    NoMessage,
    NoRoom,
}

impl Refusal {
    fn number(self) -> u64
        ensures { result ≡ number_of self }
    {
        match self {
            Refusal::UnknownBundle => 23,
            Refusal::NoInstance => 10,
            Refusal::NoMessage => 15,
            Refusal::NoRoom => 18,
        }
    }
}

// A message of the form in a row, if its parts make one and the buffer is long enough. A refusal writes nothing.
fn build_form(
    row: usize,
    kind: u64,
    asked: bool,
    given: Given<'_>,
    buf: &mut [u8],
) -> Result<usize, Refusal>
    requires { (row < form_count) × (all_given given.runs given.first.now given.second.now ≡ true) }
    ensures { told (answer result) buf.new ≡ handed buf.old (made_of asked given.entry (form_at row).fields kind) }
{
    let arguments = parts::judge(row, given).ok_or(Refusal::NoMessage)?;
    let message = Message {
        row,
        kind,
        asked,
        arguments,
        given,
    };
    match message.len() {
        Some(len) if len <= buf.len() => {
            message.lay(buf);
            Ok(len)
        }
        _ => Err(Refusal::NoRoom),
    }
}

// A message of the protocol that an instance of the bundle speaks. Parts that are not given as they should be are refused only where the bundle
// has the instance.
fn build_spoken(
    bundle: u64,
    instance: u64,
    kind: u64,
    asked: bool,
    given: Option<Given<'_>>,
    buf: &mut [u8],
) -> Result<usize, Refusal>
    requires { IfSome given (λ g. all_given g.runs g.first.now g.second.now ≡ true) }
    ensures { (ns : List ℕ) (runs : ℕ) (first : List ℕ) (second : List ℕ) → AreGiven given.entry ns runs first second
        → told (answer result) buf.new ≡ build_of bundle instance kind asked ns runs first second buf.old }
{
    if !wire::instances::known(bundle) {
        return Err(Refusal::UnknownBundle);
    }
    if wire::instances::count(bundle) as u64 <= instance {
        return Err(Refusal::NoInstance);
    }
    let given = given.ok_or(Refusal::NoMessage)?;
    let p = rows::spoken::protocol(bundle, instance as usize);
    let row = messages::forms::find(p, kind).ok_or(Refusal::NoMessage)?;
    build_form(row, kind, asked, given, buf)
}

// Makes a message of the protocol that an instance of the bundle speaks, at the front of the lent buffer, from its kind, its
// numbers and so many runs: none, the first, or both. A run that is not given is empty. `asked` is whether its list is to be of indefinite
// length; a message without a list is the same either way, and so is a version map.
pub fn build(
    bundle: u64,
    instance: u64,
    kind: u64,
    asked: bool,
    numbers: &[u64],
    runs: u64,
    first: &[u8],
    second: &[u8],
    buf: &mut [u8],
) -> Built
    ensures { told result buf.new ≡ build_of bundle instance kind asked numbers.now runs first.now second.now buf.old }
{
    let given = Given::of(numbers, runs, first, second);
    match build_spoken(bundle, instance, kind, asked, given, buf) {
        Ok(len) => Built { number: 0, len },
        Err(refusal) => Built {
            number: refusal.number(),
            len: 0,
        },
    }
}
