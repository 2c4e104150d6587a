// Lists the segments of one direction of a connection, read from standard input to its end: a line for each
// whole segment, of time, protocol, mode and length, and a last line. It has no last line if it ends before.
#![tactic(auto)]

use input::Stop;
use lister_core::Listing;

fn main(rt: HostRuntime) {
    let mut space = io::large_buffer();
    match list(rt, &mut space) {
        Ok(()) => {}
        Err(Stop::Unread) => output::stop(rt.stderr(), b"lister: cannot read standard input\n"),
        Err(Stop::Unwritten) => {
            output::stop(rt.stderr(), b"lister: cannot write to standard output\n")
        }
    }
}

// Lists all of the input.
//
// A proved loop has to end, and nothing says that the input does. So the loop counts its reads, up to a number that
// no run uses up.
fn list(rt: HostRuntime, space: &mut [u8]) -> Result<(), Stop> {
    let mut known = Listing::begin();
    for _ in 0..u64::MAX {
        let n = input::read(rt.stdin(), space)?;
        if n == 0 {
            return lister_lines::print_last(rt.stdout(), known).map_err(|_| Stop::Unwritten);
        }
        lister_lines::print_run(rt.stdout(), &mut known, &space[..n]).map_err(|_| Stop::Unwritten)?;
    }
    Ok(())
}
