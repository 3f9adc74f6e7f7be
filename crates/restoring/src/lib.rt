// From an image to the state that it holds.
#![tactic(auto)]

ghost use Rattle.std.specs.Prelude.{◌≡◌, eqb};
ghost use Rattle.base.specs.Decide.{pick, and};
ghost use Rattle.base.specs.Bytes.{byte_at};
ghost use Rattle.image.specs.Image.{image_version};
ghost use Rattle.image.specs.Answers.{found_number, bits_at, booleans, right_length, read_in};

use image::{NoImage, NotRead};
use state::Tag;

mod parts;

// The state that an image holds, or a refusal with the state of zeros beside it. Whether it is sound, `soundness::sound` judges.
#[tactic(auto, unfolding(image::specs::Answers::read_in, image::specs::Answers::right_length))]
pub fn from_image(s: &[u8]) -> Result<Tag, NotRead>
    ensures told { result ≡ read_in s.now }
    ensures number { found_number result
        ≡ pick (right_length s.now) (pick (and (eqb (byte_at s.now 0) image_version) (bits_at s.now booleans)) 0 1003) 1005 }
{
    if s.len() != 684 {
        return parts::refused(NoImage::WrongLength);
    }
    if s[0] != 2 {
        return parts::refused(NoImage::WrongVersion);
    }
    if !parts::bits_right(s) {
        return parts::refused(NoImage::NotABoolean);
    }
    Ok(parts::tag_in(s))
}
