// A fresh tag in an image of 684 bytes, by numbers.
#![tactic(auto)]

ghost use Rattle.making.specs.Making.{Makes};

// The image of a fresh tag with a UID.
#[tactic(auto, unfolding(delivery::specs::Fresh::made_number, image::specs::Answers::right_length, image::specs::Answers::stored_in, image::specs::Answers::image_in))]
pub fn make(uid: &[u8], state: &mut [u8]) -> usize
    ensures { Makes uid.now state.old result state.new }
{
    if state.len() != 684 {
        return 1005;
    }
    match delivery::fresh(uid) {
        Ok(tag) => {
            storing::to_image(tag, state).unwrap();
            0
        }
        Err(_) => 1004,
    }
}
