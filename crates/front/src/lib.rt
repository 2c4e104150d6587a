// The front of one connection, for whoever calls it: the eight operations, `part` behind look, and the types that they take
// and give.
//
// Nothing is defined here. Each operation stands in a crate of its own, with a contract that determines its answer, the next
// record and every lent byte, on every input; what holds over many calls is in `promises`. The program `example` is a first
// connection by these calls.
//
// What to lend. The front keeps no memory. It is lent two stores: a receive store, and a send store, each exactly as long as
// the capacities of that sort add up to, over the bundle's instances; what they hold at first does not matter. The rest is
// handed from call to call by value: the record, `Connection`. After an open answered 0, hand both back as the last call left
// them, and no call on them answers 23. look, build and next_segment are lent a buffer besides, and write at its front: 8 + S
// bytes are enough for next_segment. look's, scratch, is written only where a message goes around its area's end: as many bytes
// as the instance's receive capacity are always enough, and a message that lies in one run needs none.
//
// Which instance is which.
//
//     bundle 0      node to node: 0 Handshake, 1 and 2 Chain-Sync, 3 and 4 Block-Fetch, 5 and 6 TxSubmission, 7 and 8
//                   Keep-alive. We are initiator of the odd ones and responder of the even ones from 2 up
//     bundle 1      node to client: 0 Handshake, 1 Chain-Sync, 2 Local TxSubmission, 3 Local State Query
//
// Of Handshake, and of all of bundle 1, the dialler is initiator and the accepter responder. Arrays by instance have room for
// the largest bundle. What stands behind the bundle's last instance is never looked at, and status shows 0 there.
//
// In what order.
//
//     open          once, with the settings: bundle, side, payload limit S (1 to 65,535) and the capacities (16 to 131,072)
//     feed          whenever bytes have come, cut anywhere
//     look, part    whenever an instance may hold a message: look tells its kind, its numbers, where its items lie, and its
//                   place; part hands out the bytes at that place, of the store or of scratch, as look left them. Nothing but
//                   scratch has changed, and a second look shows the same
//     drop          whenever the first message is done with, looked at or not: its bytes are freed, and the state moves. The
//                   answer tells the same as look's
//     build, put    whenever there is something to say: build makes a message in a buffer, put queues it
//     next_segment  whenever bytes can go out, until it answers 4: the instances are served in turn
//     status        at any time: what is held and waits of each instance, which are ready, and the closing
//
// What a message says. Its kind is its message number: crates/messages/specs/Forms.antt lists the kinds of each protocol with
// their fields, crates/rows/specs/Rows.antt who may send which in what state. look and drop tell `count` numbers, and `parts`
// items, lists and maps: of each, `places` has start and length, counted in the message. build is given the same: the numbers,
// and `runs` runs of bytes, none, `first` or both. A list's run is its elements end to end, a map's its keys and values.
// `asked`: whether a list is to be of indefinite length.
//
// What comes back. Each answer begins with a number:
//
//     0             done
//     1 to 4        a notice, and nothing has changed: 1 more bytes have to come, 2 it is our turn, 3 the instance has
//                   finished, 4 nothing is to be sent
//     11 to 13      feed: 11 unknown protocol, 12 wrong mode, 13 more than there is room for; and
//     14 to 17      look and drop: 14 no CBOR, and `offset` tells the first bad byte, counted from the message's first; 15 no
//                   message of the protocol, 16 not allowed in the present state, 17 bytes behind the end. A fault of the
//                   other end: the connection is closed, and status tells by what and on which instance
//     others        refused, and nothing has changed: 10 no such instance, 18 the lent buffer is too short, 19 Handshake has
//                   not ended in Accept, 20 closed, 21 not our turn, 22 no room in the queue, 23 a setting, the record or a
//                   store's length is out of range, 24 a Handshake message is longer than S; and, as above, 15 from build, 15 and
//                   16 from put
//
// By call, in the order in which they are looked for; 0 where none is found:
//
//     open, status  23
//     feed          23, 20, and at each header 11, 12, 13
//     look          23, 10, 19, 3 or 17, 2, 1 (20 on a closed connection), 14, 15, 16, 18 (only of a message that goes around)
//     drop          the same, without 18
//     build         23 (unknown bundle), 10, 15, 18
//     put           23, 10, 20, 19, 21, 15, 16, 24, 22
//     next_segment  23, 20, 4, 18
//
// On a closed connection look and drop still answer for what is held whole. Where look tells no message, its place is Nowhere
// and part is empty. An open that is refused hands back a record on which every call answers 23.
#![tactic(auto)]

pub use build::{Built, build};
pub use connection::{Closing, Connection, Gate, Settings};
pub use dropping::{Dropped, drop};
pub use feeding::{Fed, feed};
pub use hearing::Shown;
pub use looking::{Looked, Place, look, part};
pub use messages::{MOST_NUMBERS, MOST_PLACES, Message};
pub use opening::{Opened, open};
pub use putting::{Queued, put};
pub use ready::Ready;
pub use sending::{Made, next_segment};
pub use telling::{Report, status};
pub use wire::instances::{INSTANCES, Party, Side};
