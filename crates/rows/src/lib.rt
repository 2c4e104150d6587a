// The rows, of every protocol: which message moves which state to which, and who has agency.
//
// One table serves taking and putting: `find` gives where a message leads in a state, `agent` who may send
// there. There is no transition outside the table. States are numbered in row order, Done last.
#![tactic(auto)]

pub mod spoken;

ghost use Rattle.std.specs.Prelude.{◌≡◌, ◌&&◌, ◌<◌, nat_eq, length, get_or};
ghost use Rattle.std.specs.List.{find};
ghost use Rattle.std.specs.Option.{option_map, unwrap_or};
ghost use Rattle.rows.specs.Rows.{done_of, rows_of, next_of, agency_of};
ghost use Rattle.rows.specs.Inside.{place_of, protocols};

#[derive(Clone, Copy)]
pub enum Protocol {
    Handshake,
    ChainSync,
    BlockFetch,
    TxSubmission,
    KeepAlive,
    LocalTxSubmission,
    LocalStateQuery,
}

// Who may send in a state.
#[derive(Clone, Copy)]
pub enum Agency {
    Initiator,
    Responder,
    Nobody,
}

// A row: in a state, whose agency it is, the message of a kind leads to the next state. The flag is the value of a message's bool, and 0
// of a message without one: only RequestTxIds is two messages, told apart by its bool.
#[derive(Clone, Copy)]
pub struct Row {
    pub state: u64,
    pub agency: Agency,
    pub kind: u64,
    pub flag: u64,
    pub next: u64,
}

// C marks initiator agency, S responder agency.
const C: Agency = Agency::Initiator;

const S: Agency = Agency::Responder;

// State, agency and kind, `true` where the message's bool is true, and the next state.
macro_rules! row {
    ($state:literal, $agency:ident, $kind:literal, $next:literal) => {
        Row { state: $state, agency: $agency, kind: $kind, flag: 0, next: $next }
    };
    ($state:literal, $agency:ident, $kind:literal, true, $next:literal) => {
        Row { state: $state, agency: $agency, kind: $kind, flag: 1, next: $next }
    };
}

// All rows, a protocol after the other, as document 01 lists them and then K1.
static ROWS: [Row; 44] = [
    // Handshake: Propose 0, Confirm 1, Done 2
    row!(0, C, 0, 1), // Propose
    row!(1, S, 1, 2), // Accept
    row!(1, S, 2, 2), // Refuse
    // Chain-Sync: Idle 0, CanAwait 1, MustReply 2, Intersect 3, Done 4
    row!(0, C, 0, 1), // RequestNext
    row!(0, C, 4, 3), // FindIntersect
    row!(0, C, 7, 4), // Done
    row!(1, S, 1, 2), // AwaitReply
    row!(1, S, 2, 0), // RollForward
    row!(1, S, 3, 0), // RollBackward
    row!(2, S, 2, 0), // RollForward
    row!(2, S, 3, 0), // RollBackward
    row!(3, S, 5, 0), // IntersectFound
    row!(3, S, 6, 0), // IntersectNotFound
    // Block-Fetch: Idle 0, Busy 1, Streaming 2, Done 3
    row!(0, C, 0, 1), // RequestRange
    row!(0, C, 1, 3), // ClientDone
    row!(1, S, 2, 2), // StartBatch
    row!(1, S, 3, 0), // NoBlocks
    row!(2, S, 4, 2), // Block
    row!(2, S, 5, 0), // BatchDone
    // TxSubmission: Init 0, Idle 1, Blocking 2, NonBlocking 3, Txs 4, Done 5
    row!(0, C, 6, 1), // Init
    row!(1, S, 0, true, 2), // RequestTxIds, blocking
    row!(1, S, 0, 3), // RequestTxIds, not blocking
    row!(1, S, 2, 4), // RequestTxs
    row!(2, C, 1, 1), // ReplyTxIds
    row!(2, C, 4, 5), // Done
    row!(3, C, 1, 1), // ReplyTxIds
    row!(4, C, 3, 1), // ReplyTxs
    // Keep-alive: Client 0, Server 1, Done 2
    row!(0, C, 0, 1), // KeepAlive
    row!(0, C, 2, 2), // Done
    row!(1, S, 1, 0), // Response
    // Local TxSubmission: Idle 0, Busy 1, Done 2
    row!(0, C, 0, 1), // Submit
    row!(0, C, 3, 2), // Done
    row!(1, S, 1, 0), // Accept
    row!(1, S, 2, 0), // Reject
    // Local State Query: Idle 0, Acquiring 1, Acquired 2, Querying 3, Done 4
    row!(0, C, 0, 1), // Acquire
    row!(0, C, 8, 1), // Acquire of no item
    row!(0, C, 7, 4), // Done
    row!(1, S, 1, 2), // Acquired
    row!(1, S, 2, 0), // Failure
    row!(2, C, 3, 3), // Query
    row!(2, C, 6, 1), // ReAcquire
    row!(2, C, 9, 1), // ReAcquire of no item
    row!(2, C, 5, 0), // Release
    row!(3, S, 4, 2), // Result
];

// How many protocols there are.
pub const PROTOCOLS: usize = 7;

// The place of a protocol in a table of one for each.
fn place(p: Protocol) -> usize
    ensures { (result ≡ place_of p) × (result < length protocols) }
{
    p as usize
}

// A protocol's number in a table of one for each.
pub fn number_of(table: [u8; PROTOCOLS], p: Protocol) -> usize
    ensures { result ≡ get_or table (place_of p) 0 }
{
    let at = place(p);
    table[at] as usize
}

// The state that a protocol ends in. It is the last of its states by number.
pub fn done(p: Protocol) -> u64
    ensures { result ≡ done_of p }
{
    match p {
        Protocol::Handshake => 2,
        Protocol::ChainSync => 4,
        Protocol::BlockFetch => 3,
        Protocol::TxSubmission => 5,
        Protocol::KeepAlive => 2,
        Protocol::LocalTxSubmission => 2,
        Protocol::LocalStateQuery => 4,
    }
}

// A protocol's rows.
fn rows(p: Protocol) -> &'static [Row]
    ensures { result.now ≡ rows_of p }
{
    match p {
        Protocol::Handshake => &ROWS[0..3],
        Protocol::ChainSync => &ROWS[3..13],
        Protocol::BlockFetch => &ROWS[13..19],
        Protocol::TxSubmission => &ROWS[19..27],
        Protocol::KeepAlive => &ROWS[27..30],
        Protocol::LocalTxSubmission => &ROWS[30..34],
        Protocol::LocalStateQuery => &ROWS[34..44],
    }
}

// Where the first row of a message in a state leads.
fn next_at(rows: &[Row], state: u64, kind: u64, flag: u64) -> Option<u64>
    ensures { result ≡ option_map (λ r. r.next) (find (λ r. nat_eq r.state state && (nat_eq r.kind kind && nat_eq r.flag flag)) rows.now) }
{
    rows.iter()
        .find(|r| r.state == state && (r.kind == kind && r.flag == flag))
        .map(|r| r.next)
}

// Whose agency the first row of a state is.
fn agency_at(rows: &[Row], state: u64) -> Agency
    ensures { result ≡ unwrap_or (option_map (λ r. r.agency) (find (λ r. nat_eq r.state state) rows.now)) Agency.Nobody }
{
    rows.iter()
        .find(|r| r.state == state)
        .map_or(Agency::Nobody, |r| r.agency)
}

// Where a message leads in a state, if it has a row there.
pub fn find(p: Protocol, state: u64, kind: u64, flag: u64) -> Option<u64>
    ensures { result ≡ next_of p state kind flag }
{
    next_at(rows(p), state, kind, flag)
}

// Who may send in a state.
pub fn agent(p: Protocol, state: u64) -> Agency
    ensures { result ≡ agency_of p state }
{
    agency_at(rows(p), state)
}
