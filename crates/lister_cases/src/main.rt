// The lister's lines for inputs that are easy to get wrong, each cut into runs of one byte, of three, and in one:
// a line with the runs' size, and then what the lister prints.
#![tactic(auto)]

ghost use Rattle.std.specs.Prelude.{◌<◌};

use lister_core::Listing;
use output::{WriteFailed, Writer};
use std::io::Stdout;

fn main(rt: HostRuntime) {
    if all(rt.stdout()).is_err() {
        output::stop(
            rt.stderr(),
            b"lister_cases: cannot write to standard output\n",
        );
    }
}

// Each case.
fn all(stdout: Stdout) -> Result<(), WriteFailed> {
    // no bytes at all
    each(stdout, b"")?;
    // P1 and P2 joined
    each(
        stdout,
        b"\x00\x00\x00\x01\x00\x08\x00\x03\x82\x00\x07\x00\x00\x00\x02\x80\x08\x00\x03\x82\x01\x07",
    )?;
    // a cut inside a header: after seven of its bytes
    each(stdout, b"\xff\xff\xff\xff\x00\x00\x00")?;
    // a cut inside a payload: a header alone, and a payload without its last byte
    each(stdout, b"\x00\x00\x00\x00\x80\x02\x00\x01")?;
    each(stdout, b"\x00\x00\x00\x09\x00\x02\x00\x03\x81\x00")?;
    // n = 0: nothing is carried, and the segment is whole with its header
    each(
        stdout,
        b"\x00\x00\x00\x07\x00\x00\x00\x00\x00\x00\x00\x07\x80\x00\x00\x00",
    )?;
    // unknown protocols and the greatest numbers: layout is all that is judged
    each(
        stdout,
        b"\xff\xff\xff\xff\xff\xff\x00\x01\xee\x12\x34\x56\x78\x00\x01\x00\x02\xee\xee",
    )
}

// In runs of one byte, of three, and in one.
fn each(stdout: Stdout, bytes: &[u8]) -> Result<(), WriteFailed> {
    cut(stdout, bytes, 1)?;
    cut(stdout, bytes, 3)?;
    cut(stdout, bytes, 64)
}

// Lists the bytes in runs of a size.
fn cut(stdout: Stdout, bytes: &[u8], size: usize) -> Result<(), WriteFailed>
    requires { 0 < size }
{
    titled(stdout, size)?;
    let mut known = Listing::begin();
    for run in bytes.chunks(size) {
        lister_lines::print_run(stdout, &mut known, run)?;
    }
    lister_lines::print_last(stdout, known)
}

// The line with the size.
fn titled(stdout: Stdout, size: usize) -> Result<(), WriteFailed> {
    let mut space = [0u8; 64];
    let mut line = Writer::new(stdout, &mut space);
    line.decimal(size as u64)?;
    line.byte(b':')?;
    line.end()
}
