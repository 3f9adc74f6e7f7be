// The type of a buffer.
ghost use Rattle.std.specs.Prelude.{◌≤◌};

// The text is the first bytes, as many as the length says.
#[derive(Clone, Copy, Debug, PartialEq, Eq)]
pub struct Buffer<const N: usize> {
    pub bytes: [u8; N],
    pub length: usize,
    ghost fits: { length ≤ N },
}
