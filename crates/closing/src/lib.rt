// Replies closed in the lent room (9.1.8 to 9.1.10), over the promises of `messaging`, `aes` and `padding`.
#![tactic(auto)]

mod reply;

pub use reply::{close, too_long};

// A reply that stands closed at the front of a room: how many bytes it has, and how many blocks were computed for it.
#[derive(Clone, Copy, Debug, PartialEq, Eq)]
pub struct Closed {
    pub length: usize,
    pub cost: usize,
}

// Why a reply is not closed. No block is computed then.
#[derive(Clone, Copy, Debug, PartialEq, Eq)]
pub enum NotClosed {
    // 917E: over 256 bytes with its MAC.
    TooLong,
    // The room is too small.
    NoRoom,
}
