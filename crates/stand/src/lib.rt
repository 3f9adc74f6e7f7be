// The C border: numbers and byte slices alone, the state as an image of 684 bytes. include/mainspur.h declares it.
#![tactic(auto)]

ghost use Rattle.std.specs.Prelude.{◌≡◌};
ghost use Rattle.settings.specs.Answers.{judged, verdict_word};
ghost use Rattle.normalising.specs.Answers.{normalised, normal_room, normal_number};
ghost use Rattle.image.specs.Image.{image_length};
ghost use Rattle.making.specs.Making.{Makes};
ghost use Rattle.playing.specs.Answers.{Plays};

// How long an image is.
#[unsafe(no_mangle)]
pub extern "C" fn mainspur_image_length() -> usize
    ensures { result ≡ image_length }
{
    image::image_length()
}

// The image of a fresh tag with a UID.
#[unsafe(no_mangle)]
pub extern "C" fn mainspur_fresh(uid: &[u8], state: &mut [u8]) -> usize
    ensures { Makes uid.now state.old result state.new }
{
    making::make(uid, state)
}

// The answer of the tag in an image to a command, with 20 random bytes, a room of 258 bytes or more and a journal of 16.
#[unsafe(no_mangle)]
pub extern "C" fn mainspur_call(
    state: &mut [u8],
    command: &[u8],
    random: &[u8],
    room: &mut [u8],
    journal: &mut [u8],
) -> usize
    ensures { Plays state.old command.now random.now room.old journal.old
        result state.new room.new journal.new }
{
    playing::play(state, command, random, room, journal)
}

// Whether a settings string is good for a file, or the status of the file byte or the string.
#[unsafe(no_mangle)]
pub extern "C" fn mainspur_settings_check(file: u8, text: &[u8]) -> u16
    ensures { result ≡ verdict_word (judged file text.now) }
{
    checking::check_string(file, text)
}

// The normal string of a good one at the front of the room.
#[unsafe(no_mangle)]
pub extern "C" fn mainspur_settings_normalise(file: u8, text: &[u8], room: &mut [u8]) -> usize
    ensures number { result ≡ normal_number (normalised (judged file text.now) text.now room.old) }
    ensures left { room.new ≡ normal_room (judged file text.now) text.now room.old }
{
    checking::normal_string(file, text, room)
}
