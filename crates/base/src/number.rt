// Numbers in bytes, big-endian.
ghost use Rattle.std.specs.Prelude.{◌≡◌, ◌+◌, ◌≤◌, ◌<◌, ◌^◌, length, take, drop};
ghost use Rattle.std.proofs.lemmas.List.Edits.{sets};
ghost use Rattle.base.specs.Numbers.{number, octets};

// The number that the k bytes at the place `at` spell.
pub fn read(s: &[u8], at: usize, k: usize) -> u64
    requires { (at + k ≤ length s.now) × (k ≤ 8) }
    ensures { (result ≡ number (take k (drop at s.now))) × (result < 256 ^ k) }
{
    let mut v: u64 = 0;
    for b in &s[at..at + k] {
        v = v * 256 + u64::from(*b);
    }
    v
}

// Puts the last k bytes of n at the place `at`, from the last to the first.
pub fn write(s: &mut [u8], at: usize, k: usize, n: u64)
    requires { at + k ≤ length s.old }
    ensures { s.new ≡ sets s.old at (octets k n) }
{
    let mut rest = n;
    for j in (0..k).rev() {
        s[at + j] = (rest % 256) as u8;
        rest /= 256;
    }
}
