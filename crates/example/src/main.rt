// A first connection by the calls of `front`: we dial, propose version 7, send the proposal, look at the other end's Accept, and
// drop it.
//
// The other end's bytes stand here, where a program would read them from the network. Each answer's number is printed, where a
// program would act on it. What is printed is run and compared.
#![tactic(auto)]

use front::{Connection, INSTANCES, Party, Settings, Side};
use output::{WriteFailed, Writer};
use std::io::Stdout;

// Every capacity, in bytes. A store is as long as its nine capacities together, and scratch as long as one.
const CAPACITY: u64 = 16;

const STORE: usize = 144;

const SCRATCH: usize = 16;

// Room for a segment: eight bytes of header, and S.
const LIMIT: u64 = 100;

const ROOM: usize = 108;

// Instance 0 is Handshake; its message 0 is Propose.
const HANDSHAKE: u64 = 0;

const PROPOSE: u64 = 0;

// Room for a line.
const LINE: usize = 64;

// Prints a line: what `write` puts in it, and its end.
fn print<F: FnOnce(&mut Writer<'_>) -> Result<(), WriteFailed>>(
    stdout: Stdout,
    write: F,
) -> Result<(), WriteFailed>
    requires { F.IsAlwaysCallable write }
{
    let mut space = [0u8; LINE];
    let mut out = Writer::new(stdout, &mut space);
    write(&mut out)?;
    out.end()
}

// A line of a word and numbers.
fn say(stdout: Stdout, word: &[u8], numbers: &[u64]) -> Result<(), WriteFailed> {
    print(stdout, |out| {
        out.words(word)?;
        out.numbers(numbers)
    })
}

// A line of bytes in hex.
fn show(stdout: Stdout, bytes: &[u8]) -> Result<(), WriteFailed> {
    print(stdout, |out| out.hex(bytes))
}

// Node to node (bundle 0), as the one that dialled.
fn settings() -> Settings {
    Settings {
        party: Party {
            bundle: 0,
            side: Side::Dialler,
        },
        limit: LIMIT,
        receive: [CAPACITY; INSTANCES],
        send: [CAPACITY; INSTANCES],
    }
}

// Proposes version 7 with parameters 0. Behind the kind, build is given: whether a list is to be of indefinite length (Propose
// has no list); no numbers; one run of bytes, the map's key and value; and an empty second run.
fn propose(stdout: Stdout, c: Connection, send: &mut [u8]) -> Result<Connection, WriteFailed> {
    let mut message = [0; ROOM];
    let built = front::build(
        0,
        HANDSHAKE,
        PROPOSE,
        false,
        &[],
        1,
        b"\x07\x00",
        b"",
        &mut message,
    );
    say(stdout, b"build", &[built.number, built.len as u64])?;
    let queued = front::put(c, send, HANDSHAKE, &message[..built.len.min(ROOM)]);
    say(stdout, b"put", &[queued.number])?;
    Ok(queued.connection)
}

// What is to be sent, as one segment. The time in its header is the caller's, here 5.
fn send_out(stdout: Stdout, c: Connection, send: &[u8]) -> Result<Connection, WriteFailed> {
    let mut segment = [0; ROOM];
    let made = front::next_segment(c, send, 5, &mut segment);
    say(stdout, b"next", &[made.number, made.len as u64])?;
    show(stdout, &segment[..made.len.min(ROOM)])?;
    Ok(made.connection)
}

// The other end's answer: Accept of version 7, with parameters 0.
fn hear(stdout: Stdout, c: Connection, receive: &mut [u8]) -> Result<Connection, WriteFailed> {
    let fed = front::feed(
        c,
        receive,
        b"\x00\x00\x00\x09\x80\x00\x00\x04\x83\x01\x07\x00",
    );
    say(stdout, b"feed", &[fed.number, fed.used as u64])?;
    Ok(fed.connection)
}

// What it says, looked at where it lies. Here a program would decide whether it wants it.
fn consider(stdout: Stdout, c: Connection, receive: &[u8]) -> Result<Connection, WriteFailed> {
    let mut scratch = [0; SCRATCH];
    let looked = front::look(c, receive, HANDSHAKE, &mut scratch);
    let shown = looked.shown;
    let what = shown.message;
    say(stdout, b"look", &[shown.number, shown.len as u64])?;
    say(stdout, b"kind and version", &[what.kind, what.numbers[0]])?;
    let message = front::part(receive, &scratch, looked.place, shown.len);
    show(stdout, message)?;
    Ok(looked.connection)
}

// The message is done with: its bytes are freed, and Handshake has ended.
fn let_go(stdout: Stdout, c: Connection, receive: &[u8]) -> Result<Connection, WriteFailed> {
    let dropped = front::drop(c, receive, HANDSHAKE);
    let shown = dropped.shown;
    say(stdout, b"drop", &[shown.number, shown.len as u64])?;
    Ok(dropped.connection)
}

// The whole connection, as far as its lines can be written.
fn connect(stdout: Stdout) -> Result<(), WriteFailed> {
    let mut receive = [0; STORE];
    let mut send = [0; STORE];
    let opened = front::open(settings(), &receive, &send).connection;
    let proposed = propose(stdout, opened, &mut send)?;
    let sent = send_out(stdout, proposed, &send)?;
    let heard = hear(stdout, sent, &mut receive)?;
    let considered = consider(stdout, heard, &receive)?;
    let accepted = let_go(stdout, considered, &receive)?;
    say(stdout, b"status", &[front::status(accepted).number])
}

fn main(rt: HostRuntime) {
    if connect(rt.stdout()).is_err() {
        output::stop(rt.stderr(), b"example: cannot write to standard output\n");
    }
}
