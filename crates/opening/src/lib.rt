// Open: settings become a record. One equation determines number and record, on every input; stores are tested and not written.
//
// Settings are in range, and the stores as long as they say, exactly if the record that they become is.
#![tactic(auto)]

ghost use Rattle.std.specs.Prelude.{◌≡◌, length};
ghost use Rattle.opening.specs.Openings.{fresh, refused_open, open_of};

use connection::{Connection, Gate, Receiving, Sending, Settings, Talk};
use range::range_of;
use wire::instances::{INSTANCES, Party, Side};
use wire::segment::Header;

// The number, 0 or 23, and the record.
// Kept: the number in front, which README promises of every answer; and a record with each, on which every call then answers 23 (`open_of`).
#[derive(Clone, Copy)]
pub struct Opened {
    pub number: u64,
    pub connection: Connection,
}

// Nothing received, nothing sent, every protocol in its first state.
fn fresh(settings: Settings, turn: u64) -> Connection
    ensures { result ≡ fresh settings turn }
{
    let zeros = [0; INSTANCES];
    let receiving = Receiving {
        starts: zeros,
        held: zeros,
        header: Header::empty(),
        instance: 0,
        rest: 0,
    };
    let sending = Sending {
        starts: zeros,
        waiting: zeros,
        turn,
    };
    let talk = Talk {
        states: zeros,
        accepted: false,
    };
    Connection {
        settings,
        receiving,
        sending,
        talk,
        gate: Gate::Open,
    }
}

// All numbers 0 and no closing.
fn refused() -> Opened
    ensures { result ≡ refused_open }
{
    let none = [0; INSTANCES];
    let party = Party {
        bundle: 0,
        side: Side::Dialler,
    };
    let settings = Settings {
        party,
        limit: 0,
        receive: none,
        send: none,
    };
    Opened {
        number: 23,
        connection: fresh(settings, 0),
    }
}

// Settings in, stores tested and not written, record out.
pub fn open(settings: Settings, receive: &[u8], send: &[u8]) -> Opened
    ensures { result ≡ open_of settings (length receive.now) (length send.now) }
{
    let connection = fresh(settings, 1);
    match range_of(&connection) {
        Some(lengths)
            if receive.len() as u64 == lengths.receive && send.len() as u64 == lengths.send => {
            Opened {
                number: 0,
                connection,
            }
        }
        _ => refused(),
    }
}
