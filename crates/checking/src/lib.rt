// A settings string's verdict, and its normal form, by numbers.
#![tactic(auto)]

ghost use Rattle.std.specs.Prelude.{◌≡◌};
ghost use Rattle.settings.specs.Answers.{judged, verdict_word};
ghost use Rattle.normalising.specs.Answers.{normalised, normal_room, normal_number};

use normalising::NotNormal;

// Whether a settings string is good for a file, or the status of the file byte or the string.
#[tactic(auto, unfolding(settings::specs::Answers::verdict_word))]
pub fn check_string(file: u8, text: &[u8]) -> u16
    ensures { result ≡ verdict_word (judged file text.now) }
{
    match settings::judge(file, text) {
        Ok(()) => 0x9100,
        Err(fault) => fault.into(),
    }
}

// The normal string of a good one at the front of the room.
#[tactic(auto, unfolding(normalising::specs::Answers::normal_number))]
pub fn normal_string(file: u8, text: &[u8], room: &mut [u8]) -> usize
    ensures number { result ≡ normal_number (normalised (judged file text.now) text.now room.old) }
    ensures left { room.new ≡ normal_room (judged file text.now) text.now room.old }
{
    match normalising::normalise(file, text, room) {
        Ok(n) => n,
        Err(NotNormal::Fault(fault)) => usize::from(u16::from(fault)),
        Err(NotNormal::RoomTooSmall) => 1006,
    }
}
