// Cipher block chaining over a lent buffer, in place (SP 800-38A, section 6.2).
#![tactic(auto)]

ghost use Rattle.std.specs.Prelude.{◌≡◌};
ghost use Rattle.cbc.specs.Cbc.{block_at, Chains, cbc_out, cbc_back};

use aes::{decrypt_with, encrypt_with, xor_block};

// The length is no whole number of blocks: the buffer is as it was.
#[derive(Clone, Copy, Debug, PartialEq, Eq)]
pub struct Ragged;

// The block that starts at an index; zeros where the slice ends before it does.
pub fn load(s: &[u8], at: usize) -> [u8; 16]
    ensures { result ≡ block_at s.now at }
{
    let mut r = [0; 16];
    if at <= s.len() && 16 <= s.len() - at {
        r.copy_from_slice(&s[at..at + 16]);
    }
    r
}

// Encrypts a buffer, from an initial vector. Says how many blocks it computed.
pub fn cbc_encrypt(w: &[[u8; 16]; 11], iv: [u8; 16], buf: &mut [u8]) -> Result<usize, Ragged>
    ensures { Chains (cbc_out w.now iv) buf.old result buf.new }
{
    if buf.len() % 16 != 0 {
        return Err(Ragged);
    }
    let t = sbox::mixing();
    let mut v = iv;
    let mut cost = 0;
    for i in 0..buf.len() / 16 {
        let p = load(buf, i * 16);
        let c = encrypt_with(&t, w, xor_block(p, v));
        base::put(&c.bytes, buf, i * 16);
        v = c.bytes;
        cost += c.cost;
    }
    Ok(cost)
}

// Decrypts a buffer, from an initial vector. Says how many blocks it computed.
pub fn cbc_decrypt(w: &[[u8; 16]; 11], iv: [u8; 16], buf: &mut [u8]) -> Result<usize, Ragged>
    ensures { Chains (cbc_back w.now iv) buf.old result buf.new }
{
    if buf.len() % 16 != 0 {
        return Err(Ragged);
    }
    let b = sbox::backward();
    let u = sbox::unmixing();
    let mut v = iv;
    let mut cost = 0;
    for i in 0..buf.len() / 16 {
        let c = load(buf, i * 16);
        let d = decrypt_with(&b, &u, w, c);
        let p = xor_block(d.bytes, v);
        base::put(&p, buf, i * 16);
        v = c;
        cost += d.cost;
    }
    Ok(cost)
}
