// Bytes of any length up to N, in fixed memory.
#![tactic(auto)]

ghost use Rattle.std.specs.Prelude.{[], ◌≡◌, ◌++◌, length, min, take, replicate};
ghost use Rattle.base.specs.Bytes.{over};
ghost use Rattle.buffers.specs.Text.{text_of};

mod buffer;

pub use buffer::Buffer;

impl<const N: usize> Buffer<N> {
    // No text.
    pub fn empty() -> Buffer<N>
        ensures text { text_of result ≡ [] }
        ensures length { result.length ≡ 0 }
        ensures zeros { result.bytes ≡ replicate N 0 }
    {
        Buffer {
            bytes: [0; N],
            length: 0,
        }
    }

    // The first N bytes of a text, and zeros behind it.
    pub fn of(text: &[u8]) -> Buffer<N>
        ensures text { text_of result ≡ take N text.now }
        ensures length { result.length ≡ min (length text.now) N }
        ensures zeros { result.bytes ≡ over (take N text.now) (replicate N 0) }
    {
        let length = text.len().min(N);
        let mut bytes = [0; N];
        bytes[..length].copy_from_slice(&text[..length]);
        Buffer { bytes, length }
    }

    // More bytes behind the text, as many as there is room for.
    pub fn append(&mut self, more: &[u8])
        ensures { text_of self.new ≡ take N (text_of self.old ++ more.now) }
    {
        let n = more.len().min(N - self.length);
        let end = self.length + n;
        let room = &mut self.bytes[..];
        room[self.length..end].copy_from_slice(&more[..n]);
        self.length = end;
    }

    // The text.
    pub fn as_slice(&self) -> &[u8]
        ensures { result.now ≡ text_of self.now }
    {
        &self.bytes[..self.length]
    }
}
