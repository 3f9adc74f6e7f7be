// Commands opened (9.1.8 to 9.1.10), over the promises of `messaging`, `aes` and `padding`.
#![tactic(auto)]

mod command;

pub use command::open;

// What opening a command came to: how many bytes of plain data stand at the front of the room, or why none do; and how many blocks
// were computed.
#[derive(Clone, Copy, Debug, PartialEq, Eq)]
pub struct Opened {
    pub data: Result<usize, NotOpened>,
    pub cost: usize,
}

// Why a command is not opened.
#[derive(Clone, Copy, Debug, PartialEq, Eq)]
pub enum NotOpened {
    // 917E: not the length for the mode.
    WrongLength,
    // 911E.
    WrongMac,
    // 911E.
    WrongPadding,
    // More than the 255 bytes that a command can have.
    TooLong,
    // The room is shorter than the command.
    NoRoom,
}
