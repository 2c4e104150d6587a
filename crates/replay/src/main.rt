// Runs a script of calls on one front, read from standard input, and prints a line for each: docs/REPLAY.md.
//
// `desk` makes the call of each line, and `answering` prints what it is answered. The desk is what goes from line to line.
// The stores, and the space for what is read, are lent.
#![tactic(auto)]

mod answering;
mod desk;

use calls::STORE;
use desk::Desk;
use input::Stop;

// How long a line may be, and how much is read at once.
const LINE: usize = 300000;

const CHUNK: usize = 65536;

// Space for what is read: a line, and behind it what is read next.
const SPACE: usize = LINE + CHUNK;

// Every byte of the stores at the start, and of the lent buffer before each call.
const FILL: u8 = 238;

fn main(rt: HostRuntime) {
    let mut receive = [FILL; STORE];
    let mut send = [FILL; STORE];
    let mut space = [0; SPACE];
    run(rt, &mut receive, &mut send, &mut space);
}

// Runs the script to its end, or as far as its answers can be written.
fn run(
    rt: HostRuntime,
    receive: &mut [u8; STORE],
    send: &mut [u8; STORE],
    space: &mut [u8; SPACE],
) {
    let mut desk = Desk::new(rt.stdout(), receive, send);
    match input::each_line(rt.stdin(), space, LINE, |line, long| desk.line(line, long)) {
        Ok(()) => {}
        Err(Stop::Unread) => output::stop(rt.stderr(), b"replay: cannot read standard input\n"),
        Err(Stop::Unwritten) => {
            output::stop(rt.stderr(), b"replay: cannot write to standard output\n")
        }
    }
}
