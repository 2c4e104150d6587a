// The eight header bytes of a segment, big-endian: four of time, two whose top bit is the mode and
// whose other fifteen are the protocol number, two of payload length.
ghost use Rattle.std.specs.Prelude.{◌≡◌, leb, ◌≤◌, length};
ghost use Rattle.std.proofs.lemmas.List.Edits.{sets};
ghost use Rattle.wire.specs.Segments.{header_length, empty, added, decoded, encoded};
ghost use Rattle.wire.specs.Inside.{Fits};

use base::number;

// How many bytes a header has.
pub const HEADER: usize = 8;

// What the mode counts in the two bytes that it has with the protocol number.
const MODE: u64 = 32768;

// What a header says: len counts the payload's bytes.
#[derive(Clone, Copy)]
pub struct Segment {
    pub time: u32,
    pub mode: u8,
    pub protocol: u16,
    pub len: u16,
}

// The header bytes that have come so far: the first `count` of `bytes`.
#[derive(Clone, Copy)]
pub struct Header {
    pub bytes: [u8; HEADER],
    pub count: usize,
}

// Kept: document 01 names methods by value, each of which hands the record on.
impl Header {
    // No byte yet.
    pub fn empty() -> Header
        ensures { result ≡ empty }
    {
        Header {
            bytes: [0; HEADER],
            count: 0,
        }
    }

    // One byte more. A record that is whole stays as it is.
    pub fn add(self, b: u8) -> Header
        ensures { result ≡ added self b }
    {
        let mut next = self;
        if self.count < HEADER {
            next.bytes[self.count] = b;
            next.count += 1;
        }
        next
    }

    // Whether all eight bytes are in.
    pub fn whole(self) -> bool
        ensures { result ≡ leb header_length self.count }
    {
        HEADER <= self.count
    }

    // What they say once all are in.
    pub fn segment(self) -> Segment
        ensures { (result ≡ decoded self.bytes) × Fits result }
    {
        decode(self.bytes)
    }
}

// What eight bytes say.
fn decode(bytes: [u8; HEADER]) -> Segment
    ensures { (result ≡ decoded bytes) × Fits result }
{
    let time = number::read(&bytes, 0, 4);
    let word = number::read(&bytes, 4, 2);
    let len = number::read(&bytes, 6, 2);
    Segment {
        time: time as u32,
        mode: (word / MODE) as u8,
        protocol: (word % MODE) as u16,
        len: len as u16,
    }
}

// Puts a segment's header at the front of the buffer.
pub fn write(buf: &mut [u8], s: Segment)
    requires { (header_length ≤ length buf.old) × Fits s }
    ensures { buf.new ≡ sets buf.old 0 (encoded s) }
{
    let word = u64::from(s.mode) * MODE + u64::from(s.protocol);
    number::write(buf, 0, 4, u64::from(s.time));
    number::write(buf, 4, 2, word);
    number::write(buf, 6, 2, u64::from(s.len));
}
