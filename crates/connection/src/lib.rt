// One connection: its record, the gate that a fault closes, and the areas of its stores.
//
// The record goes into each call and comes back by value. It is grouped by what changes together: settings never,
// receiving by feed and drop, sending by put and next segment, talk by drop and put, the gate by a fault.
#![tactic(auto)]

use wire::instances::{INSTANCES, Party};
use wire::segment::Header;

pub mod areas;
pub mod closings;

// Set at open: which end we are, the payload limit S, and the capacities by instance. Arrays by instance have room for
// the largest bundle.
// Kept: arrays by instance, one for each thing that is counted: document 01 names arrays by value of held and waiting counts.
#[derive(Clone, Copy)]
pub struct Settings {
    pub party: Party,
    pub limit: u64,
    pub receive: [u64; INSTANCES],
    pub send: [u64; INSTANCES],
}

// By instance, where in its area the first held byte is, and how many are held; the header record; and of a payload
// under way, its instance and the bytes still to come. There is none where rest is 0.
#[derive(Clone, Copy)]
pub struct Receiving {
    pub starts: [u64; INSTANCES],
    pub held: [u64; INSTANCES],
    pub header: Header,
    pub instance: u64,
    pub rest: u64,
}

// By instance, where in its area the first waiting byte is, and how many wait; and whose turn it is.
#[derive(Clone, Copy)]
pub struct Sending {
    pub starts: [u64; INSTANCES],
    pub waiting: [u64; INSTANCES],
    pub turn: u64,
}

// By instance, the state; and whether Handshake ended in Accept.
#[derive(Clone, Copy)]
pub struct Talk {
    pub states: [u64; INSTANCES],
    pub accepted: bool,
}

// Why a connection was closed: the refusal number alone, or the number and its instance.
// Kept: document 01 names this form, an enum with or without instance.
#[derive(Clone, Copy)]
pub enum Closing {
    Bare(u64),
    Of(u64, u64),
}

// Whether the connection takes input and sends.
// Kept: document 01 names this form, an enum Open or Closed in the record.
#[derive(Clone, Copy)]
pub enum Gate {
    Open,
    Closed(Closing),
}

// The record of a connection.
#[derive(Clone, Copy)]
pub struct Connection {
    pub settings: Settings,
    pub receiving: Receiving,
    pub sending: Sending,
    pub talk: Talk,
    pub gate: Gate,
}
