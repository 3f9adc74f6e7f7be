// What the tag in an image of 684 bytes answers to a command, by numbers.
#![tactic(auto)]

ghost use Rattle.std.specs.Prelude.{◌≡◌, length};
ghost use Rattle.playing.specs.Answers.{journal_of, Answers, Plays};

use access::Grant;
use state::Tag;
use tag::Outcome;

// What a call notes and what it cost, over the journal.
#[tactic(auto, unfolding(base::specs::Bytes::low, crate::specs::Answers::journal_of))]
fn note(noted: Option<Grant>, cost: usize, journal: &mut [u8])
    requires { length journal.old ≡ 16 }
    ensures { journal.new ≡ journal_of noted cost }
{
    let m = access::marked(noted);
    let [low, high, ..] = cost.to_le_bytes();
    journal.copy_from_slice(&[
        m.how, m.right, low, high, 0, 0, 0, 0, 0, 0, 0, 0, 0, 0, 0, 0,
    ]);
}

// The answer to a command, with the next state laid over the image where there is a reply.
#[tactic(auto, unfolding(image::specs::Answers::stored_in, image::specs::Answers::right_length))]
fn answer(
    tag: Tag,
    state: &mut [u8],
    command: &[u8],
    random: &[u8],
    room: &mut [u8],
    journal: &mut [u8],
) -> usize
    requires { (length state.old ≡ 684) × (length journal.old ≡ 16) }
    ensures { Answers tag state.old command.now random.now room.old
        result state.new room.new journal.new }
{
    let called = tag::call(tag, command, random, room);
    note(called.noted, called.cost, journal);
    match called.outcome {
        Outcome::Replied => {
            storing::to_image(called.tag, state).unwrap();
            called.length
        }
        Outcome::SmallRoom => 1001,
        Outcome::WrongRandom => 1002,
        Outcome::Unsound => 1003,
    }
}

// The answer of the tag in an image to a command, with 20 random bytes, a room of 258 bytes or more and a journal of 16.
pub fn play(
    state: &mut [u8],
    command: &[u8],
    random: &[u8],
    room: &mut [u8],
    journal: &mut [u8],
) -> usize
    ensures { Plays state.old command.now random.now room.old journal.old
        result state.new room.new journal.new }
{
    if state.len() != 684 {
        return 1005;
    }
    if journal.len() != 16 {
        return 1007;
    }
    // bytes that hold no state are judged by the state beside the refusal
    match restoring::from_image(state) {
        Ok(tag) => answer(tag, state, command, random, room, journal),
        Err(e) => answer(e.beside, state, command, random, room, journal),
    }
}
