// The AES floor: AES-128 on a block, both ways (FIPS 197). A caller expands a key once (`key_expansion`) and lends the round keys to
// every call; one that takes many blocks loads the tables of `sbox` once and lends them too.
#![tactic(auto)]

mod block;

pub use block::{decrypt, decrypt_with, encrypt, encrypt_with, xor_block};

// Bytes, and how many blocks were computed for them.
#[derive(Clone, Copy, Debug, PartialEq, Eq)]
pub struct Counted<const N: usize> {
    pub bytes: [u8; N],
    pub cost: usize,
}
