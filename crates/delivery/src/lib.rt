// A fresh tag from a UID: what a tag is delivered with, and refusal 4.
#![tactic(auto)]

mod delivery;

pub use delivery::{blank, fresh};
use state::Tag;

// Refusal 4, and the state beside it: every byte and number of it is 0.
#[derive(Clone, Copy)]
pub struct WrongUid {
    pub beside: Tag,
}
