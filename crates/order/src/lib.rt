// The fourteen commands, and the order of their checks, steps 1 to 5 (01): a command's bytes become a value, once, or the
// status that refuses them.
#![tactic(auto)]

mod fronts;
mod iso;
mod naming;
mod ordering;

pub use fronts::key_status;
pub use ordering::command_in;

// The commands.
#[derive(Clone, Copy, Debug, PartialEq, Eq)]
pub enum Name {
    AuthenticateFirst,
    AuthenticateNonFirst,
    PartTwo,
    ChangeKey,
    GetKeyVersion,
    GetCardUid,
    GetFileSettings,
    ChangeFileSettings,
    GetFileCounters,
    ReadData,
    WriteData,
    IsoSelectFile,
    IsoReadBinary,
    IsoUpdateBinary,
}

// A command: its name, class and INS; how long its header is and whether it has a data part; the key or the file that it is
// about, P1 and P2, offset and length or Le, 0 where it has none; and where its data lies among its bytes.
#[derive(Clone, Copy, Debug, PartialEq, Eq)]
pub struct Command {
    pub name: Name,
    pub class: u8,
    pub ins: u8,
    pub header: usize,
    pub parted: bool,
    pub key: u8,
    pub file: u8,
    pub p1: u8,
    pub p2: u8,
    pub offset: usize,
    pub count: usize,
    pub start: usize,
    pub end: usize,
}
