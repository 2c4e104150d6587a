// A view of bytes that may lie around a slice's end.
ghost use Rattle.std.specs.Prelude.{◌≤◌, length};

// The `len` bytes from the place `from` on of a slice that is seen as a ring: its front follows its end.
#[derive(Clone, Copy)]
pub struct View<'a> {
    pub bytes: &'a [u8],
    pub from: usize,
    pub len: usize,
    ghost begins_inside: { from ≤ length bytes.now },
    ghost once_round: { len ≤ length bytes.now },
}
