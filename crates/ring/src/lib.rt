// Areas of a store: where each begins, and runs of bytes of a stream written to and read from its area.
//
// Byte n of a stream is kept in its area at place n mod capacity. A run is copied in at most two straight copies: up
// to the area's end, and on from its front. Nothing else is written.
#![tactic(auto)]

pub mod view;

ghost use Rattle.std.specs.Prelude.{◌≡◌, ◌+◌, ◌%◌, ◌^◌, ◌≤◌, ◌<◌, length, get_or};
ghost use Rattle.std.proofs.lemmas.List.Edits.{sets};
ghost use Rattle.ring.specs.Ring.{base_of, stream, laid, run};
ghost use Rattle.ring.specs.Inside.{around};
ghost use Rattle.ring.specs.Inside.{seen};

use view::View;

// Where area i begins, and, for i the number of areas, how long the store is.
pub fn base_of(caps: &[u64], i: usize) -> usize
    requires { (i ≤ length caps.now) × (base_of caps.now i < 2 ^ 64) }
    ensures { result ≡ base_of caps.now i }
{
    let mut sum: u64 = 0;
    for cap in &caps[..i] {
        sum += *cap;
    }
    sum as usize
}

// Where in its area of cap bytes byte n of a stream is kept. Most numbers are below the capacity and need no division.
fn place_of(cap: usize, n: usize) -> usize
    requires { 0 < cap }
    ensures { (result ≡ n % cap) × (result < cap) }
{
    if n < cap { n } else { n % cap }
}

// Copies k bytes of src from place i on to dst from place `to` on.
pub fn copy(dst: &mut [u8], to: usize, src: &[u8], i: usize, k: usize)
    requires { (to + k ≤ length dst.old) × (i + k ≤ length src.now) }
    ensures { dst.new ≡ sets dst.old to (run src.now i k) }
{
    dst[to..to + k].copy_from_slice(&src[i..i + k]);
}

// Writes k bytes of src from place i on as byte n of the stream and those that follow it.
pub fn write(store: &mut [u8], base: usize, cap: usize, n: usize, src: &[u8], i: usize, k: usize)
    requires { (k ≤ cap) × (0 < cap) × (base + cap ≤ length store.old) × (i + k ≤ length src.now) }
    ensures { store.new ≡ laid store.old base cap n (run src.now i k) }
{
    let start = place_of(cap, n);
    let ahead = cap - start;
    if k <= ahead {
        copy(store, base + start, src, i, k);
    } else {
        copy(store, base + start, src, i, ahead);
        copy(store, base, src, i + ahead, k - ahead);
    }
}

// Reads k bytes of the stream from byte n on to dst from place `to` on.
pub fn read(dst: &mut [u8], to: usize, store: &[u8], base: usize, cap: usize, n: usize, k: usize)
    requires { (k ≤ cap) × (0 < cap) × (base + cap ≤ length store.now) × (to + k ≤ length dst.old) }
    ensures { dst.new ≡ sets dst.old to (stream store.now base cap n k) }
{
    let start = place_of(cap, n);
    let ahead = cap - start;
    if k <= ahead {
        copy(dst, to, store, base + start, k);
    } else {
        copy(dst, to, store, base + start, ahead);
        copy(dst, to + ahead, store, base, k - ahead);
    }
}

impl<'a> View<'a> {
    // All of a slice, from its front.
    pub fn all(bytes: &'a [u8]) -> View<'a>
        ensures { seen result ≡ bytes.now }
    {
        View {
            bytes,
            from: 0,
            len: bytes.len(),
        }
    }

    // Byte j.
    pub fn byte(self, j: usize) -> u8
        requires { j < self.len }
        ensures { result ≡ get_or (seen self.entry) j 0 }
    {
        let ahead = self.bytes.len() - self.from;
        if j < ahead {
            self.bytes[self.from + j]
        } else {
            self.bytes[j - ahead]
        }
    }
}
