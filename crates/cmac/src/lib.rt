// CMAC (SP 800-38B, section 6), and the eight bytes of it that 01 keeps.
#![tactic(auto)]

ghost use Rattle.std.specs.Prelude.{◌≡◌, ◌∷◌, ◌++◌, ◌+◌, ◌-◌, ◌≤◌, ◌<◌, length, drop, replicate};
ghost use Rattle.sbox.specs.Words.{mixing_table};
ghost use Rattle.cmac.specs.Cmac.{shifted, doubled, last_block, cmac, even_places, cmac_cost};
ghost use Rattle.aes.specs.Block.{counted, block_cost};

use aes::{Counted, encrypt_with, xor_block};
use cbc::load;

// A block shifted to the left by one bit.
fn shift(s: [u8; 16]) -> [u8; 16]
    ensures { result ≡ shifted s }
{
    let mut r = [0; 16];
    for i in 0..15 {
        r[i] = s[i] % 128 * 2 + s[i + 1] / 128 % 2;
    }
    r[15] = s[15] % 128 * 2;
    r
}

// A block doubled (6.1).
fn double_block(s: [u8; 16]) -> [u8; 16]
    ensures { result ≡ doubled s }
{
    let moved = shift(s);
    if 128 <= s[0] {
        return xor_block(moved, [0, 0, 0, 0, 0, 0, 0, 0, 0, 0, 0, 0, 0, 0, 0, 135]);
    }
    moved
}

// Fewer than 16 bytes, with 80 and zeros behind them.
fn padded(s: &[u8]) -> [u8; 16]
    requires { length s.now < 16 }
    ensures { result ≡ s.now ++ 128 ∷ replicate (15 - length s.now) 0 }
{
    let mut r = [0; 16];
    base::put(s, &mut r, 0);
    r[s.len()] = 128;
    r
}

// The last block of a message, summed with its subkey, for which a block is computed.
fn last_block(t: &[u32; 256], w: &[[u8; 16]; 11], s: &[u8]) -> Counted<16>
    requires { (t.now ≡ mixing_table) × (length s.now ≤ 16) }
    ensures { result ≡ counted (last_block w.now s.now) block_cost }
{
    let zero = encrypt_with(t, w, [0; 16]);
    let k1 = double_block(zero.bytes);
    if s.len() == 16 {
        return Counted {
            bytes: xor_block(load(s, 0), k1),
            cost: zero.cost,
        };
    }
    Counted {
        bytes: xor_block(padded(s), double_block(k1)),
        cost: zero.cost,
    }
}

// The CMAC of a message of any length.
pub fn cmac_of(w: &[[u8; 16]; 11], s: &[u8]) -> Counted<16>
    ensures { result ≡ counted (cmac w.now s.now) (cmac_cost (length s.now)) }
{
    let t = sbox::mixing();
    let front = s.len().saturating_sub(1) / 16;
    let mut v = [0; 16];
    let mut cost = 0;
    for i in 0..front {
        let c = encrypt_with(&t, w, xor_block(load(s, i * 16), v));
        v = c.bytes;
        cost += c.cost;
    }
    let last = last_block(&t, w, &s[front * 16..]);
    let end = encrypt_with(&t, w, xor_block(last.bytes, v));
    let bytes = end.bytes;
    Counted {
        bytes,
        cost: cost + last.cost + end.cost,
    }
}

// The second, fourth and every further even place of the CMAC.
pub fn mac_of(w: &[[u8; 16]; 11], s: &[u8]) -> Counted<8>
    ensures { result ≡ counted (even_places (cmac w.now s.now)) (cmac_cost (length s.now)) }
{
    let c = cmac_of(w, s);
    let t = c.bytes;
    Counted {
        bytes: [t[1], t[3], t[5], t[7], t[9], t[11], t[13], t[15]],
        cost: c.cost,
    }
}
