// Heads of CBOR data items (RFC 8949, section 3): what an initial byte says; in `read` a head read at a place, in
// `write` one written as short as can be. What was written is read back, and no shorter head says the same.
#![tactic(auto)]

pub mod read;
pub mod write;

ghost use Rattle.std.specs.Prelude.{◌≡◌};
ghost use Rattle.head.specs.Initial.{major_of, open_of, initial};

// Major types by number, the upper three bits of an initial byte: integers from 0 on and below, strings, containers, tags,
// and simple values with floats.
// Kept: numbers, and not an enum: an initial byte is 32 times the one and the additional information, read and written.
pub const UNSIGNED: u8 = 0;

pub const NEGATIVE: u8 = 1;

pub const BYTES: u8 = 2;

pub const TEXT: u8 = 3;

pub const ARRAY: u8 = 4;

pub const MAP: u8 = 5;

pub const TAG: u8 = 6;

pub const SIMPLE: u8 = 7;

// Additional information, the lower five bits of an initial byte, so that a major type has 32 initial bytes. Below 24 it is
// the argument; from there on the argument is in 1, 2, 4 or 8 bytes that follow; the next values are reserved, but for
// the last, which says that there is no argument.
pub const INFOS: u8 = 32;

pub const ONE_BYTE: u8 = 24;

pub const TWO_BYTES: u8 = 25;

pub const FOUR_BYTES: u8 = 26;

pub const EIGHT_BYTES: u8 = 27;

pub const RESERVED: u8 = 28;

pub const OPEN: u8 = 31;

// What a major type begins. Major types 0, 1 and 7 are one: a number, after whose head nothing follows.
#[derive(Clone, Copy)]
pub enum Major {
    Number,
    Bytes,
    Text,
    Array,
    Map,
    Tag,
}

// What an initial byte says: its argument is in the byte itself; it is in the k + 1 bytes that follow; there is none,
// and the length is indefinite; a simple value in the next byte; a break; additional information that is reserved.
#[derive(Clone, Copy)]
pub enum Initial {
    Short(Major, u64),
    Long(Major, usize),
    Indefinite(Major),
    Simple,
    Break,
    Reserved,
}

// What a major type begins, by its number.
fn major_of(m: u8) -> Major
    ensures { result ≡ major_of m }
{
    if m == BYTES {
        return Major::Bytes;
    }
    if m == TEXT {
        return Major::Text;
    }
    if m == ARRAY {
        return Major::Array;
    }
    if m == MAP {
        return Major::Map;
    }
    if m == TAG {
        return Major::Tag;
    }
    Major::Number
}

// Additional information 31: no argument.
fn open_of(m: u8) -> Initial
    ensures { result ≡ open_of m }
{
    if m == SIMPLE {
        return Initial::Break;
    }
    if BYTES <= m {
        if m <= MAP {
            return Initial::Indefinite(major_of(m));
        }
    }
    Initial::Reserved
}

// What an initial byte says.
pub fn initial_of(b: u8) -> Initial
    ensures { result ≡ initial b }
{
    let m = b / INFOS;
    let i = b % INFOS;
    if i < ONE_BYTE {
        return Initial::Short(major_of(m), i as u64);
    }
    if i == ONE_BYTE {
        if m == SIMPLE {
            return Initial::Simple;
        }
        return Initial::Long(major_of(m), 0);
    }
    if i == TWO_BYTES {
        return Initial::Long(major_of(m), 1);
    }
    if i == FOUR_BYTES {
        return Initial::Long(major_of(m), 3);
    }
    if i == EIGHT_BYTES {
        return Initial::Long(major_of(m), 7);
    }
    if i == OPEN {
        return open_of(m);
    }
    Initial::Reserved
}
