// A message by what its form, its own heads and its runs are.
ghost use Rattle.std.specs.Prelude.{◌≡◌, ◌+◌, ◌<◌, length};
ghost use Rattle.messages.specs.Inside.{form_count};

use head::{ARRAY, UNSIGNED};
use messages::forms::MOST_FIELDS;
use parts::given::Given;
use parts::is_number;

// A message of the form in a row, of a kind, with the argument of each field's head, from what is given. `asked` is whether its list is to be
// of indefinite length.
#[derive(Clone, Copy)]
pub struct Message<'a> {
    pub row: usize,
    pub kind: u64,
    pub asked: bool,
    pub arguments: [u64; MOST_FIELDS],
    pub given: Given<'a>,
    pub ghost listed: { row < form_count },
}

impl Message<'_> {
    ghost use Rattle.std.specs.Prelude.{◌≤◌, ◌^◌, SomeIff};
    ghost use Rattle.std.proofs.lemmas.List.Edits.{sets};
    ghost use Rattle.layout.specs.Inside.Message.{field_heads, heads, body, whole};

    // How long the fields' heads and breaks are together.
    fn field_heads(&self) -> usize
        ensures { (result ≡ field_heads self.now) × (result ≤ 27) }
    {
        let mut sum = 0;
        for i in 0..messages::forms::fields(self.row) {
            let f = messages::forms::field_at(self.row, i);
            sum += super::own_len(self.asked, f, self.arguments[i]);
        }
        sum
    }

    // How long all heads and breaks of the message are together: the array's, the kind's and the fields'.
    pub fn heads(&self) -> usize
        ensures { (result ≡ heads self.now) × (result ≤ 45) }
    {
        let array = head::write::head_len(messages::forms::fields(self.row) as u64 + 1);
        array + head::write::head_len(self.kind) + self.field_heads()
    }

    // How long the message is that has all of both runs, if that is a number of 64 bits.
    pub fn len(&self) -> Option<usize>
        requires { length (whole self.now) ≡ heads self.now + (length self.now.given.first.now + length self.now.given.second.now) }
        ensures { SomeIff result (length (whole self.now) < 2 ^ 64) (length (whole self.now)) }
    {
        let first = self.heads().checked_add(self.given.first.len())?;
        first.checked_add(self.given.second.len())
    }

    // The fields, one behind the other.
    fn put_fields(&self, buf: &mut [u8], start: usize)
        requires { start + length (body self.now) ≤ length buf.old }
        ensures { buf.new ≡ sets buf.old start (body self.now) }
    {
        let mut at = start;
        let mut r: usize = 0;
        for i in 0..messages::forms::fields(self.row) {
            let f = messages::forms::field_at(self.row, i);
            let run = if r == 0 {
                self.given.first
            } else {
                self.given.second
            };
            at = super::put_field(buf, at, self.asked, f, self.arguments[i], run);
            if !is_number(f) {
                r += 1;
            }
        }
    }

    // Puts the message at the front of the buffer.
    pub fn lay(&self, buf: &mut [u8])
        requires { length (whole self.now) ≤ length buf.old }
        ensures { buf.new ≡ sets buf.old 0 (whole self.now) }
    {
        let count = messages::forms::fields(self.row) as u64 + 1;
        let number = head::write::write_head(buf, 0, ARRAY, count);
        let fields = head::write::write_head(buf, number, UNSIGNED, self.kind);
        self.put_fields(buf, fields);
    }
}
