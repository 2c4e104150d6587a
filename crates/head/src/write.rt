// A head written as short as can be.
ghost use Rattle.std.specs.Prelude.{◌≡◌, ◌+◌, ◌≤◌, ◌<◌, length};
ghost use Rattle.std.proofs.lemmas.List.Edits.{sets};
ghost use Rattle.head.specs.Write.{width_of, shortest};
ghost use Rattle.head.specs.Inside.{length_of};

use super::{EIGHT_BYTES, FOUR_BYTES, INFOS, ONE_BYTE, TWO_BYTES};

// How the argument of the shortest head is given: its additional information, and how many bytes follow.
#[derive(Clone, Copy)]
pub struct Width {
    pub info: u8,
    pub bytes: usize,
}

// The fewest bytes that the argument needs.
fn width_of(argument: u64) -> Width
    ensures { (result ≡ width_of argument) × (result.info < 28) × (result.bytes ≤ 8) }
{
    if argument < 24 {
        return Width {
            info: argument as u8,
            bytes: 0,
        };
    }
    if argument < 256 {
        return Width {
            info: ONE_BYTE,
            bytes: 1,
        };
    }
    if argument < 65536 {
        return Width {
            info: TWO_BYTES,
            bytes: 2,
        };
    }
    if argument < 4294967296 {
        return Width {
            info: FOUR_BYTES,
            bytes: 4,
        };
    }
    Width {
        info: EIGHT_BYTES,
        bytes: 8,
    }
}

// How long the shortest head is.
pub fn head_len(argument: u64) -> usize
    ensures { (result ≡ length_of argument) × (result ≤ 9) }
{
    let w = width_of(argument);
    w.bytes + 1
}

// Writes the shortest head at the place `at`, and hands back the place behind it.
pub fn write_head(buf: &mut [u8], at: usize, major: u8, argument: u64) -> usize
    requires { (major < 8) × (at + length_of argument ≤ length buf.old) }
    ensures { (result ≡ at + length_of argument) × (buf.new ≡ sets buf.old at (shortest major argument)) }
{
    let w = width_of(argument);
    let k = w.bytes;
    buf[at] = major * INFOS + w.info;
    base::number::write(buf, at + 1, k, argument);
    at + 1 + k
}
