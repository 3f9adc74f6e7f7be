// A tag's state as an image of 684 bytes, a version byte first (docs/IMAGE.md): what crosses the C border. `storing` writes it, `restoring` reads it.
#![tactic(auto)]

ghost use Rattle.std.specs.Prelude.{◌≡◌};
ghost use Rattle.image.specs.Image.{image_length};

use state::Tag;

// Why bytes hold no state.
#[derive(Clone, Copy, Debug, PartialEq, Eq)]
pub enum NoImage {
    WrongLength,
    WrongVersion,
    NotABoolean,
}

// Bytes hold no state: why, and the state beside the refusal, every byte and number of it 0.
#[derive(Clone, Copy)]
pub struct NotRead {
    pub why: NoImage,
    pub beside: Tag,
}

// The bytes that were lent have not the length of an image.
#[derive(Clone, Copy, Debug, PartialEq, Eq)]
pub struct OtherLength;

// How long an image is.
pub fn image_length() -> usize
    ensures { result ≡ image_length }
{
    684
}
