// Parts of a file, and the files with other bytes.
ghost use Rattle.std.specs.Prelude.{◌≡◌, replicate};
ghost use Rattle.base.specs.Bytes.{over};
ghost use Rattle.buffers.specs.Text.{text_of};
ghost use Rattle.state.specs.State.{file_of};
ghost use Rattle.replies.specs.Answer.{Gives};
ghost use Rattle.file_parts.specs.Filing.{part_of, stored, stored_iso, with_bytes};

use buffers::Buffer;
use messaging::Mode;
use replies::Done;
use state::{Files, Tag};
use statuses::Status;

// The part of a text from an offset on, so many bytes of it, at most 256.
pub fn cut(text: &[u8], at: usize, count: usize) -> Buffer<258>
    ensures text { text_of result ≡ part_of text.now at count }
    ensures zeros { result.bytes ≡ over (part_of text.now at count) (replicate 258 0) }
{
    let rest = &text[at.min(text.len())..];
    Buffer::of(&rest[..rest.len().min(count).min(256)])
}

// The part of file n from an offset on.
fn file_part(f: Files, n: u8, at: usize, count: usize) -> Buffer<258>
    ensures { text_of result ≡ part_of (file_of f n) at count }
{
    let start = state::file_start(n);
    let end = start + state::file_size(n);
    cut(&f.bytes[start..end], at, count)
}

// A wrapped read of stored bytes.
#[tactic(auto, unfolding(crate::specs::Filing::stored))]
pub fn read_stored(tag: Tag, m: Mode, n: u8, at: usize, count: usize) -> Done
    ensures { Gives (stored tag m n at count) result }
{
    replies::accept(tag, m, file_part(tag.files, n, at, count))
}

// An ISO read of stored bytes.
#[tactic(auto, unfolding(crate::specs::Filing::stored_iso))]
pub fn read_stored_iso(tag: Tag, n: u8, at: usize, count: usize) -> Done
    ensures { Gives (stored_iso tag n at count) result }
{
    replies::give(
        replies::after(tag),
        Status::IsoNormal,
        file_part(tag.files, n, at, count),
        0,
    )
}

// The files with other bytes from an offset of file n on.
#[tactic(auto, unfolding(crate::specs::Filing::with_bytes))]
pub fn with_bytes(f: Files, n: u8, at: usize, p: &[u8]) -> Files
    ensures { result ≡ with_bytes f n at p.now }
{
    let mut bytes = f.bytes;
    base::put(p, &mut bytes, state::file_start(n).saturating_add(at));
    Files { bytes, ..f }
}
