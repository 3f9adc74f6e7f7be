// What a rehearsal prints of a line of its plan, as text at the front of a lent room.
#![tactic(auto)]

mod decision;
mod exchanges;
mod names;
mod plain;
mod turn;
mod work;

pub use turn::line_text;

// Why a command was granted: how and under which right, by the numbers of a journal, and the key of the session that it came in.
#[derive(Clone, Copy, Debug, PartialEq, Eq)]
pub struct Why {
    pub how: u8,
    pub right: u8,
    pub key: u8,
}
