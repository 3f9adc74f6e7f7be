// The state of a tag, by value: every state can be written down, and `soundness` judges it. With it its parts and what ends.
#![tactic(auto)]

mod parts;

pub use parts::{
    ended, file_size, file_start, key_of, no_live, no_pending, quiet, reading_in, session_of,
    slot_of, string_in, talking,
};

// The files' bytes (file 1 from 0, file 2 from 32, file 3 from 288), their settings strings (27 bytes for each) and the
// strings' lengths.
#[derive(Clone, Copy)]
pub struct Files {
    pub bytes: [u8; 416],
    pub rules: [u8; 81],
    pub lens: [u8; 3],
}

// The five keys, 16 bytes each, and their versions.
#[derive(Clone, Copy)]
pub struct Secrets {
    pub keys: [u8; 80],
    pub versions: [u8; 5],
}

// A session. One that has ended holds zeros.
// No Option here and below: an image with `on` 0 and other bytes not 0 is a state too, and is read back as it is (theorem `read_image`).
#[derive(Clone, Copy)]
pub struct Live {
    pub on: bool,
    pub key: u8,
    pub enc: [u8; 16],
    pub mac: [u8; 16],
    pub ti: [u8; 4],
    pub counter: u16,
}

// A part two that is pending, of 71 (first) or of 77. One that has ended, and what does not apply, holds zeros.
#[derive(Clone, Copy)]
pub struct Pending {
    pub on: bool,
    pub first: bool,
    pub key: u8,
    pub rnd_b: [u8; 16],
    pub cap: [u8; 6],
    pub ti: [u8; 4],
    pub counter: u16,
}

// Whether the application is selected, and the selected file, 0 for none.
#[derive(Clone, Copy)]
pub struct Place {
    pub application: bool,
    pub file: u8,
}

// Whether a tap runs, whether by ISOReadBinary, the tap counter, and the padding that was drawn when the tap started. Where no tap
// runs the padding is zeros.
#[derive(Clone, Copy)]
pub struct Tapping {
    pub on: bool,
    pub iso: bool,
    pub counter: u32,
    pub padding: [u8; 12],
}

#[derive(Clone, Copy)]
pub struct Tag {
    pub uid: [u8; 7],
    pub files: Files,
    pub secrets: Secrets,
    pub live: Live,
    pub pending: Pending,
    pub place: Place,
    pub tap: Tapping,
}
