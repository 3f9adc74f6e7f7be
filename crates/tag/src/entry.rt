// The one entry: refusals 1 to 3, and the reply laid into the room.
ghost use Rattle.std.specs.Prelude.{true, ◌≡◌, ◌≤◌, length};
ghost use Rattle.buffers.specs.Text.{text_of};
ghost use Rattle.statuses.specs.Words.{status_word};
ghost use Rattle.soundness.specs.Sound.{sound_tag, judged_tag};
ghost use Rattle.tag.specs.Way.{answered, noted};
ghost use Rattle.tag.specs.Call.{with_status, unanswered, Laid, Replies, Calls};

use crate::answering::answered;
use crate::{Called, Outcome};
use buffers::Buffer;
use soundness::Judged;
use state::Tag;
use statuses::Status;

#[tactic(auto, unfolding(crate::specs::Call::unanswered))]
fn unanswered(outcome: Outcome, tag: Tag) -> Called
    ensures { result ≡ unanswered outcome tag }
{
    Called {
        outcome,
        length: 0,
        tag,
        noted: None,
        cost: 0,
    }
}

// The text and the status at the front of the room, and how many bytes they are.
fn lay(text: Buffer<258>, status: Status, room: &mut [u8]) -> usize
    requires { (text.length ≤ 256) × (258 ≤ length room.old) }
    ensures { Laid (with_status (text_of text) (status_word status)) room.old result room.new }
{
    let n = text.length;
    let word = u16::from(status);
    base::put(text.as_slice(), room, 0);
    base::put(&word.to_be_bytes(), room, n);
    n + 2
}

// The answer to a sound tag's command; j is what judging the tag gave.
fn reply(tag: Tag, j: Judged, command: &[u8], random: [u8; 20], room: &mut [u8]) -> Called
    requires j_value { j ≡ judged_tag tag }
    requires tag_value { sound_tag tag ≡ true }
    requires room_len { 258 ≤ length room.old }
    ensures { Replies (answered tag command.now random) (noted tag command.now) room.old result room.new }
{
    let answer = answered(tag, j, command, random);
    let done = answer.done;
    Called {
        outcome: Outcome::Replied,
        length: lay(done.data, done.status, room),
        tag: done.tag,
        noted: answer.noted,
        cost: done.cost,
    }
}

// The answer to a command, at the front of the room.
pub fn call(tag: Tag, command: &[u8], random: &[u8], room: &mut [u8]) -> Called
    ensures { Calls tag command.now random.now room.old result room.new }
{
    if room.len() < 258 {
        return unanswered(Outcome::SmallRoom, tag);
    }
    let Ok(drawn) = <[u8; 20]>::try_from(random) else {
        return unanswered(Outcome::WrongRandom, tag);
    };
    let j = soundness::judge_tag(tag);
    if j.sound {
        return reply(tag, j, command, drawn, room);
    }
    unanswered(Outcome::Unsound, tag)
}
