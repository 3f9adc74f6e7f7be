// Access and mode: what the rights of a file and the session grant a command (8.2.3), decided once for both classes; and what a journal
// notes of it.
#![tactic(auto)]

mod granting;
mod marking;

pub use granting::decide;
pub use marking::marked;
use messaging::Mode;

// The rights of a file, in Table 9's order.
#[derive(Clone, Copy, Debug, PartialEq, Eq)]
pub enum Right {
    Read,
    Write,
    ReadWrite,
    Change,
    SdmMetaRead,
    SdmFileRead,
    SdmCtrRet,
}

// How a command is granted (8.2.3), or not: by a key under a right, by the tap rule under SDMFileRead, by E under a right, without any of
// these rights; or every condition concerned is F, or not.
#[derive(Clone, Copy, Debug, PartialEq, Eq)]
pub enum Grant {
    ByKey(Right),
    ByTap,
    Free(Right),
    Unasked,
    Never,
    Denied,
}

// How a command is granted, the mode that goes with it, and whether it is a tap: a read without a session with SDM on.
#[derive(Clone, Copy)]
pub struct Decision {
    pub grant: Grant,
    pub mode: Mode,
    pub tap: bool,
}

// What a journal notes of the decision, by number: how, and under which right.
#[derive(Clone, Copy, Debug, PartialEq, Eq)]
pub struct Marks {
    pub how: u8,
    pub right: u8,
}
