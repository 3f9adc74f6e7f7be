// From a state to its image.
#![tactic(auto)]

ghost use Rattle.std.specs.Prelude.{◌≡◌};
ghost use Rattle.base.specs.Decide.{pick};
ghost use Rattle.image.specs.Answers.{stored_number, right_length, stored_in, image_in};

use image::OtherLength;
use state::Tag;

mod parts;

// The image of a state over 684 lent bytes. Any other length is left as it is.
#[tactic(auto, unfolding(image::specs::Answers::stored_in, image::specs::Answers::image_in, image::specs::Answers::right_length))]
pub fn to_image(tag: Tag, s: &mut [u8]) -> Result<(), OtherLength>
    ensures answer { result ≡ stored_in s.old }
    ensures left { s.new ≡ image_in tag s.old }
    ensures number { stored_number result ≡ pick (right_length s.old) 0 1005 }
{
    if s.len() != 684 {
        return Err(OtherLength);
    }
    parts::lay_image(tag, s);
    Ok(())
}
