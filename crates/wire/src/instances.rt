// Which instance a segment is for: protocol number and mode together choose it, in a bundle of instances.
//
// A bundle that is unknown has no instances, and knows no protocol.
ghost use Rattle.std.specs.Prelude.{◌≡◌, ◌<◌, ◌≤◌, map};
ghost use Rattle.wire.specs.Instances.{sided, known, bundle_of, instances, most, role_of, protocol_of, initiates, mode_from, mode_of, route_of};
ghost use Rattle.wire.specs.Inside.{Within};
ghost use Rattle.wire.specs.Inside.{numbers, pair, by_mode};

use Role::{Initiator, OfSide, Responder};

// The bundles, by number: 0 node to node, 1 node to client.
pub const BUNDLES: usize = 2;

// As many instances as the largest bundle has: the length of an array by instance.
pub const INSTANCES: usize = 9;

// Handshake's.
pub const HANDSHAKE: usize = 0;

// Our side of the connection. The dialler is initiator of Handshake.
#[derive(Clone, Copy)]
pub enum Side {
    Dialler,
    Accepter,
}

// Which of the two ends of a connection we are: the bundle that runs, by number, and our side.
// Kept: a bundle by number, since a caller may give one that is none, which is 23 (`known`).
#[derive(Clone, Copy)]
pub struct Party {
    pub bundle: u64,
    pub side: Side,
}

// Our role in an instance: initiator, responder, or the one that our side has.
#[derive(Clone, Copy)]
pub enum Role {
    Initiator,
    Responder,
    OfSide,
}

// Why a segment goes to no instance: its protocol is unknown; its mode is that of our own side, at this instance.
#[derive(Clone, Copy, Debug, PartialEq, Eq)]
pub enum RouteError {
    Unknown,
    Wrong(usize),
}

// The instances of each bundle: protocol number, and our role.
static NODE_TO_NODE: [(u16, Role); INSTANCES] = [
    (0, OfSide),
    (2, Initiator),
    (2, Responder),
    (3, Initiator),
    (3, Responder),
    (4, Initiator),
    (4, Responder),
    (8, Initiator),
    (8, Responder),
];

static NODE_TO_CLIENT: [(u16, Role); 4] = [(0, OfSide), (5, OfSide), (6, OfSide), (7, OfSide)];

// Every instance's protocol number is below this.
pub const NUMBERS: usize = 9;

// The instance by bundle and protocol number, then by mode: NUMBERS rows for each bundle.
static ROUTES: [[Option<u8>; 2]; BUNDLES * NUMBERS] = [
    // node to node
    [Some(0), Some(0)],
    [None, None],
    [Some(2), Some(1)],
    [Some(4), Some(3)],
    [Some(6), Some(5)],
    [None, None],
    [None, None],
    [None, None],
    [Some(8), Some(7)],
    // node to client
    [Some(0), Some(0)],
    [None, None],
    [None, None],
    [None, None],
    [None, None],
    [Some(1), Some(1)],
    [Some(2), Some(2)],
    [Some(3), Some(3)],
    [None, None],
];

// Whether there is such a bundle.
pub fn known(bundle: u64) -> bool
    ensures { result ≡ known bundle }
{
    bundle < BUNDLES as u64
}

// A bundle's instances: none, if it is unknown.
fn bundle(number: u64) -> &'static [(u16, Role)]
    ensures { result.now ≡ map pair (bundle_of number) }
{
    match number {
        0 => &NODE_TO_NODE,
        1 => &NODE_TO_CLIENT,
        _ => &[],
    }
}

// How many instances a bundle has: none, if it is unknown.
pub fn count(bundle: u64) -> usize
    ensures { (result ≡ instances bundle) × (result ≤ most) }
{
    self::bundle(bundle).len()
}

// The protocol number of an instance.
pub fn protocol(bundle: u64, i: usize) -> u16
    requires { i < instances bundle }
    ensures { (result ≡ protocol_of bundle i) × (result < numbers) }
{
    self::bundle(bundle)[i].0
}

// Our role in an instance.
fn our_role(bundle: u64, i: usize) -> Role
    requires { i < instances bundle }
    ensures { result ≡ role_of bundle i }
{
    self::bundle(bundle)[i].1
}

// Whether our role in an instance is that of our side: then its protocol has no other instance.
pub fn of_side(bundle: u64, i: usize) -> bool
    requires { i < instances bundle }
    ensures { result ≡ sided (role_of bundle i) }
{
    matches!(our_role(bundle, i), OfSide)
}

// The mode of what we send as an instance.
pub fn mode(party: Party, i: usize) -> u8
    requires { i < instances party.bundle }
    ensures { result ≡ mode_of party i }
{
    match our_role(party.bundle, i) {
        Initiator => 0,
        Responder => 1,
        OfSide => side_mode(party.side),
    }
}

// The mode of what our side sends.
fn side_mode(side: Side) -> u8
    ensures { result ≡ mode_from (initiates side Role.OfSide) }
{
    match side {
        Side::Dialler => 0,
        Side::Accepter => 1,
    }
}

// Which instance a segment is for.
pub fn find(party: Party, protocol: u16, mode: u8) -> Result<usize, RouteError>
    requires { mode < 2 }
    ensures { (result ≡ route_of party protocol mode) × Within party.bundle result }
{
    let p = usize::from(protocol);
    if !known(party.bundle) || NUMBERS <= p {
        return Err(RouteError::Unknown);
    }
    match ROUTES[party.bundle as usize * NUMBERS + p][usize::from(mode)] {
        Some(i) => by_mode(party, mode, usize::from(i)),
        None => Err(RouteError::Unknown),
    }
}

// A segment with the mode of our own end did not come from the other.
fn by_mode(party: Party, m: u8, i: usize) -> Result<usize, RouteError>
    requires { i < instances party.bundle }
    ensures { (result ≡ by_mode party m i) × Within party.bundle result }
{
    if m == mode(party, i) {
        return Err(RouteError::Wrong(i));
    }
    Ok(i)
}
