// The areas of a store, one for each instance: bytes of an instance's stream read and written, and those at the front
// let go.
ghost use Rattle.std.specs.Prelude.{◌≡◌, ◌+◌, ◌≤◌, ◌<◌, ◌^◌, length, get_or};
ghost use Rattle.std.proofs.lemmas.List.Edits.{sets};
ghost use Rattle.ring.specs.Ring.{run};
ghost use Rattle.wire.specs.Instances.{most};
ghost use Rattle.connection.specs.Areas.{bytes_of, laid_in, starts_past, counts_less};
ghost use Rattle.connection.specs.Inside.{Area};

use wire::instances::INSTANCES;

// Reads k bytes of the stream of instance i, from byte n on, to dst from place `to` on.
pub fn read(
    dst: &mut [u8],
    to: usize,
    store: &[u8],
    caps: &[u64; INSTANCES],
    i: usize,
    n: u64,
    k: usize,
)
    requires { Area caps.now (length store.now) i × (k ≤ get_or caps.now i 0) × (to + k ≤ length dst.old) }
    ensures { dst.new ≡ sets dst.old to (bytes_of caps.now store.now i n k) }
{
    let base = ring::base_of(caps, i);
    let cap = caps[i] as usize;
    ring::read(dst, to, store, base, cap, n as usize, k);
}

// Writes k bytes of src from place `from` on as byte n of the stream of instance i and those that follow it.
pub fn write(
    store: &mut [u8],
    caps: &[u64; INSTANCES],
    i: usize,
    n: u64,
    src: &[u8],
    from: usize,
    k: usize,
)
    requires { Area caps.now (length store.old) i × (k ≤ get_or caps.now i 0) × (from + k ≤ length src.now) }
    ensures { store.new ≡ laid_in caps.now store.old i n (run src.now from k) }
{
    let base = ring::base_of(caps, i);
    let cap = caps[i] as usize;
    ring::write(store, base, cap, n as usize, src, from, k);
}

// n bytes leave the front of the area of instance i: its first byte is further on, round the area, and fewer are left.
// Place and bytes are small, so that their sum fits.
pub fn leave(
    caps: &[u64; INSTANCES],
    starts: &mut [u64; INSTANCES],
    counts: &mut [u64; INSTANCES],
    i: usize,
    n: u64,
)
    requires { (i < most) × (0 < get_or caps.now i 0) × (get_or starts.old i 0 + n < 2 ^ 32) × (n ≤ get_or counts.old i 0) }
    ensures { (starts.new ≡ starts_past caps.now starts.old i n)
        × (counts.new ≡ counts_less counts.old i n) }
{
    starts[i] = (starts[i] + n) % caps[i];
    counts[i] -= n;
}
