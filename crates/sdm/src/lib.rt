// Secure Dynamic Messaging (9.3): PICCData, and the keys, the vector and the codes of a tap, over the promises of `aes`.
#![tactic(auto)]

mod codes;

pub use codes::{picc_data, tap_enc_key, tap_encrypt, tap_iv, tap_mac, tap_mac_key};

// A tap: its UID and its counter, and whether they are mirrored.
#[derive(Clone, Copy, Debug, PartialEq, Eq)]
pub struct Tap {
    pub uid: [u8; 7],
    pub counter: u32,
    pub names: bool,
    pub counts: bool,
}
