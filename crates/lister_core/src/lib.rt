// The lister's core: the segments of one direction of a connection, by their layout alone.
//
// Bytes come in runs cut anywhere. Each step takes the next bytes of a run, one of a header or those of a
// payload that are there, and hands out a segment when its last byte is in. After all bytes, by whatever runs they came, the
// segments handed out are those of the whole, in order, and both counts are right.
#![tactic(auto)]

ghost use Rattle.std.specs.Prelude.{◌≡◌, ◌-◌, min, drop};
ghost use Rattle.lister_core.specs.Lister.{told, going, after, head_byte, begun, ended, Stepped};

use wire::segment::{Header, Segment};

// What is known after some bytes: the header, whole while its payload is under way; the payload bytes that are
// still to come; the whole segments and the bytes so far, both modulo 2^64.
#[derive(Clone, Copy)]
pub struct Listing {
    pub header: Header,
    pub rest: usize,
    pub segments: u64,
    pub bytes: u64,
}

// What a step came to, how many bytes it used, and the segment that it ended, if it ended one.
#[derive(Clone, Copy)]
pub struct Step {
    pub listing: Listing,
    pub used: usize,
    pub line: Option<Segment>,
}

impl Listing {
    // No byte yet.
    pub fn begin() -> Listing
        ensures { result ≡ begun }
    {
        Listing {
            header: Header::empty(),
            rest: 0,
            segments: 0,
            bytes: 0,
        }
    }

    // Whether the bytes break off inside no segment.
    pub fn at_end(self) -> bool
        ensures { result ≡ ended self }
    {
        self.header.count == 0
    }

    // The next bytes of a run, from a place on.
    pub fn step(self, run: &[u8], from: usize) -> Step
        ensures { Stepped self (drop from run.now) result }
    {
        if run.len() <= from {
            return Step {
                listing: self,
                used: 0,
                line: None,
            };
        }
        if 0 < self.rest {
            return self.payload(run.len() - from);
        }
        self.header_byte(run[from])
    }

    // The header is h and n payload bytes are to come, after k bytes more.
    fn under_way(self, h: Header, n: usize, k: usize) -> Step
        ensures { (told result ≡ going self h n k) × (result.used ≡ k) }
    {
        Step {
            listing: Listing {
                header: h,
                rest: n,
                segments: self.segments,
                bytes: self.bytes.wrapping_add(k as u64),
            },
            used: k,
            line: None,
        }
    }

    // The same, and where no payload bytes are to come, the segment has ended.
    #[tactic(auto, unfolding(crate::specs::Lister::after))]
    fn then(self, h: Header, n: usize, k: usize) -> Step
        ensures { (told result ≡ after self h n k) × (result.used ≡ k) }
    {
        if 0 < n {
            return self.under_way(h, n, k);
        }
        Step {
            listing: Listing {
                header: Header::empty(),
                rest: 0,
                segments: self.segments.wrapping_add(1),
                bytes: self.bytes.wrapping_add(k as u64),
            },
            used: k,
            line: Some(h.segment()),
        }
    }

    // One byte more of a header.
    #[tactic(auto, using(crate::proofs::ListerLaws::head_whole, crate::proofs::ListerLaws::head_part))]
    fn header_byte(self, b: u8) -> Step
        ensures { (told result ≡ head_byte self b) × (result.used ≡ 1) }
    {
        let h = self.header.add(b);
        if h.whole() {
            return self.then(h, usize::from(h.segment().len), 1);
        }
        self.under_way(h, 0, 1)
    }

    // As many of n bytes as the payload has still to come.
    fn payload(self, n: usize) -> Step
        ensures { (told result ≡ after self self.header (self.rest - min self.rest n) (min self.rest n)) × (result.used ≡ min self.rest n) }
    {
        let used = self.rest.min(n);
        self.then(self.header, self.rest - used, used)
    }
}
