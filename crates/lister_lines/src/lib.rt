// The lister's lines on standard output: one for each whole segment, and the last line.
//
// What is listed is proved in `lister_core`; what is printed of it is run and compared.
#![tactic(auto)]

ghost use Rattle.std.specs.Prelude.{◌≡◌};
ghost use Rattle.lister_core.specs.Lister.{fed};

use lister_core::Listing;
use output::{WriteFailed, Writer};
use std::io::Stdout;
use wire::segment::Segment;

// No line is longer.
const LINE: usize = 64;

// Lists a run of bytes, all of it even where a line could not be written. Once one could not, no other is.
#[tactic(auto, using(lister_core::proofs::ListerLaws::onward), unfolding(lister_core::specs::Lister::fed))]
pub fn print_run(stdout: Stdout, l: &mut Listing, run: &[u8]) -> Result<(), WriteFailed>
    ensures { l.new ≡ (fed l.old run.now).listing }
{
    let mut written = Ok(());
    let mut from = 0;
    // Kept: no `for`, since a step uses as many bytes as it says.
    while from < run.len() {
        let t = l.step(run, from);
        if let (Ok(()), Some(s)) = (written, t.line) {
            written = print_segment(stdout, s);
        }
        *l = t.listing;
        from += t.used;
    }
    written
}

// Time, protocol, mode, length.
fn print_segment(stdout: Stdout, s: Segment) -> Result<(), WriteFailed> {
    let mut space = [0u8; LINE];
    let mut line = Writer::new(stdout, &mut space);
    line.decimal(u64::from(s.time))?;
    line.number(u64::from(s.protocol))?;
    line.number(u64::from(s.mode))?;
    line.number(u64::from(s.len))?;
    line.end()
}

// `end` or, where bytes break off inside a segment, `cut`; then whole segments, then bytes read.
pub fn print_last(stdout: Stdout, l: Listing) -> Result<(), WriteFailed> {
    let mut space = [0u8; LINE];
    let mut line = Writer::new(stdout, &mut space);
    line.words(if l.at_end() { b"end" } else { b"cut" })?;
    line.number(l.segments)?;
    line.number(l.bytes)?;
    line.end()
}
