// Secure messaging (9.1) over the promises of `aes`: what `opening` and `closing` share, the vectors and the MAC of a message.
#![tactic(auto)]

mod protect;

pub use protect::{command_iv, command_vector, message_mac, reply_iv, reply_vector};

// How a command and its reply are protected.
#[derive(Clone, Copy, Debug, PartialEq, Eq)]
pub enum Mode {
    Plain,
    Mac,
    Full,
}

// What protects a message: the session's keys, TI and CmdCtr.
#[derive(Clone, Copy)]
pub struct Session {
    pub enc: [u8; 16],
    pub mac: [u8; 16],
    pub ti: [u8; 4],
    pub counter: u16,
}
