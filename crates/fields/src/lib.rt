// The fields of a settings string (Tables 69 and 73), whether it is good or not.
#![tactic(auto)]

mod fields;
mod front;

pub use fields::{in_order, places as places_of, settings as settings_of, size_of};
pub use front::{
    has_counter, has_enc, has_mac, has_picc, has_uid, head as head_of, present_fields, sdm_on,
};

// The fields in front: CommMode (0 Plain, 1 MAC, 3 Full), the rights Read, Write, ReadWrite and Change, SDM, the four
// options, SDMMetaRead, SDMFileRead and SDMCtrRet. With SDM off the parts of SDM are 0.
#[derive(Clone, Copy, Debug, PartialEq, Eq)]
pub struct Head {
    pub mode: u8,
    pub read: u8,
    pub write: u8,
    pub read_write: u8,
    pub change: u8,
    pub sdm: bool,
    pub uid: bool,
    pub counter: bool,
    pub limit: bool,
    pub enc: bool,
    pub sdm_meta_read: u8,
    pub sdm_file_read: u8,
    pub sdm_ctr_ret: u8,
}

// The fields behind, 0 where not there: UIDOffset, SDMReadCtrOffset, PICCDataOffset, SDMMACInputOffset, SDMENCOffset,
// SDMENCLength, SDMMACOffset, SDMReadCtrLimit.
#[derive(Clone, Copy, Debug, PartialEq, Eq)]
pub struct Places {
    pub uid: u32,
    pub counter: u32,
    pub picc: u32,
    pub input: u32,
    pub enc: u32,
    pub size: u32,
    pub mac: u32,
    pub limit: u32,
}

// What a string means.
#[derive(Clone, Copy, Debug, PartialEq, Eq)]
pub struct Settings {
    pub head: Head,
    pub places: Places,
}
