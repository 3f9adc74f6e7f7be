// The tag: a fresh one, and the answer to every command in every state.
#![tactic(auto)]

mod answering;
mod entry;

use access::Grant;
pub use delivery::{WrongUid, fresh};
pub use entry::call;
pub use state::Tag;

// A reply, or refusals 1 to 3.
#[derive(Clone, Copy, Debug, PartialEq, Eq)]
pub enum Outcome {
    Replied,
    SmallRoom,
    WrongRandom,
    Unsound,
}

// The outcome, the reply's length, the next state, what a journal notes of the access decision, if the call got to it, and how many
// AES blocks were computed.
#[derive(Clone, Copy)]
pub struct Called {
    pub outcome: Outcome,
    pub length: usize,
    pub tag: Tag,
    pub noted: Option<Grant>,
    pub cost: usize,
}
