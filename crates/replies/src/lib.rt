// What a command is answered: a status, data and the next state. Refusals and accepted commands.
#![tactic(auto)]

ghost use Rattle.std.specs.Prelude.{◌≡◌, take};
ghost use Rattle.buffers.specs.Text.{text_of};
ghost use Rattle.statuses.specs.Words.{status_word};
ghost use Rattle.replies.specs.Answer.{Gives, refusal, given_for, room_given, accepted, raised, afterwards};

use buffers::Buffer;
use messaging::Mode;
use state::{Live, Tag};
use statuses::Status;

// An answer: the status, the data, the next state, and how many blocks were computed.
#[derive(Clone, Copy)]
pub struct Done {
    pub status: Status,
    pub data: Buffer<258>,
    pub tag: Tag,
    pub cost: usize,
}

// A refusal by status: no data; session, pending part two and tap end.
#[tactic(auto, unfolding(crate::specs::Answer::answer_of, crate::specs::Answer::refusal))]
pub fn refuse(tag: Tag, status: Status) -> Done
    ensures { Gives (refusal tag (status_word status)) result }
{
    Done {
        status,
        data: Buffer::empty(),
        tag: state::ended(tag),
        cost: 0,
    }
}

// The data as they are, at most 256 bytes of them, under a status, for so many blocks.
#[tactic(auto, unfolding(crate::specs::Answer::answer_of), using(crate::proofs::Given::cut_given))]
pub fn give(tag: Tag, status: Status, reply: Buffer<258>, cost: usize) -> Done
    ensures { Gives (given_for cost tag (status_word status) (take 256 (text_of reply))) result }
{
    let bytes = reply.bytes;
    let length = reply.length.min(256);
    Done {
        status,
        data: Buffer { bytes, length },
        tag,
        cost,
    }
}

// A text as it is, up to 256 bytes of it, under a status, for so many blocks.
#[tactic(auto, unfolding(crate::specs::Answer::room_given), using(crate::proofs::Given::short_given))]
pub fn give_text(tag: Tag, status: Status, text: &[u8], cost: usize) -> Done
    ensures { Gives (room_given cost tag (status_word status) text.now) result }
{
    let mut bytes = [0; 258];
    base::put(text, &mut bytes, 0);
    let length = text.len().min(256);
    give(tag, status, Buffer { bytes, length }, cost)
}

// CmdCtr rises by one in session.
#[tactic(auto, unfolding(crate::specs::Answer::raised))]
fn raise(live: Live) -> Live
    ensures { result ≡ raised live }
{
    let counter = live.counter.saturating_add(u16::from(live.on));
    Live { counter, ..live }
}

// The tag after an accepted command: CmdCtr is raised and no tap runs.
#[tactic(auto, unfolding(crate::specs::Answer::afterwards, state::specs::State::talking))]
pub fn after(tag: Tag) -> Tag
    ensures { result ≡ afterwards tag }
{
    Tag {
        live: raise(tag.live),
        tap: state::quiet(tag.tap),
        ..tag
    }
}

// An accepted command: its data, at most 256 bytes of them, closed in its mode.
#[tactic(auto, using(crate::proofs::Accepting::reply_short))]
pub fn accept(tag: Tag, mode: Mode, reply: Buffer<258>) -> Done
    ensures { Gives (accepted tag mode (take 256 (text_of reply))) result }
{
    let next = after(tag);
    let mut bytes = reply.bytes;
    let n = reply.length.min(256);
    match closing::close(state::session_of(next.live), mode, 0, &mut bytes, n) {
        Ok(closed) => Done {
            status: Status::OperationOk,
            data: Buffer {
                bytes,
                length: closed.length,
            },
            tag: next,
            cost: closed.cost,
        },
        Err(_) => refuse(tag, Status::LengthError),
    }
}
