// PICCData, and the keys and the vector of a tap (9.3.4, 9.3.6, 9.3.8, 9.3.9).
ghost use Rattle.std.specs.Prelude.{◌≡◌, ◌∷◌, ◌++◌, ◌-◌, ◌≤◌, length, take, replicate};
ghost use Rattle.base.specs.Decide.{pick};
ghost use Rattle.base.specs.Bytes.{low};
ghost use Rattle.aes.specs.Block.{cipher, counted, block_cost};
ghost use Rattle.cmac.specs.Cmac.{mac, cmac_cost};
ghost use Rattle.sdm.specs.Tap.{mirrored_of, Mirrors, picc_tag, picc_data, picc_cost, tap_key, tap_enc_key, tap_mac_key, tap_key_cost, tap_iv, tap_iv_cost, Hides};

use crate::Tap;
use aes::Counted;
use cbc::Ragged;

// A number where something is there, and 0 where not.
fn where_there(there: bool, n: usize) -> usize
    ensures { result ≡ pick there n 0 }
{
    if there { n } else { 0 }
}

// 128 for the UID, 64 for the counter, plus 7 with the UID.
#[tactic(auto, unfolding(crate::specs::Tap::picc_tag))]
fn picc_tag(names: bool, counts: bool) -> u8
    ensures { result ≡ picc_tag names counts }
{
    match (names, counts) {
        (true, true) => 199,
        (true, false) => 135,
        (false, true) => 64,
        (false, false) => 0,
    }
}

// A counter's three bytes, low byte first.
#[tactic(auto, unfolding(base::specs::Bytes::low))]
fn three(counter: u32) -> [u8; 3]
    ensures { result ≡ low 3 counter }
{
    let [a, b, c, _] = counter.to_le_bytes();
    [a, b, c]
}

// UID and counter as far as they are mirrored, at the front of zeros, and how many bytes they are.
#[derive(Clone, Copy)]
struct Mirror {
    bytes: [u8; 10],
    count: usize,
}

fn mirror_of(t: Tap) -> Mirror
    ensures { Mirrors (mirrored_of t) result.bytes result.count }
{
    let mut bytes = [0; 10];
    let i = where_there(t.names, 7);
    let j = where_there(t.counts, 3);
    let low = three(t.counter);
    base::put(&t.uid[..i], &mut bytes, 0);
    base::put(&low[..j], &mut bytes, i);
    Mirror {
        bytes,
        count: i + j,
    }
}

// The padding, with three zeros behind it.
fn with_zeros(padding: [u8; 12]) -> [u8; 15]
    ensures { result ≡ padding ++ replicate 3 0 }
{
    let mut p = [0; 15];
    base::put(&padding, &mut p, 0);
    p
}

// The tag of PICCData, UID and counter, and padding from the front of what there is.
fn picc_text(tag: u8, b: [u8; 10], n: usize, padding: [u8; 15]) -> [u8; 16]
    requires { n ≤ 10 }
    ensures { result ≡ tag ∷ take n b ++ take (15 - n) padding }
{
    let mut t = [0; 16];
    base::put(&[tag], &mut t, 0);
    base::put(&b[..n], &mut t, 1);
    base::put(&padding[..15 - n], &mut t, 1 + n);
    t
}

// PICCData.
pub fn picc_data(key: [u8; 16], t: Tap, padding: [u8; 12]) -> Counted<16>
    ensures { result ≡ counted (picc_data key t padding) picc_cost }
{
    let m = mirror_of(t);
    let tag = picc_tag(t.names, t.counts);
    let text = picc_text(tag, m.bytes, m.count, with_zeros(padding));
    aes::encrypt(&key_expansion::expand(key), text)
}

// The input of a key of the tap, for a label.
fn vector(l: u8, m: u8, b: [u8; 10]) -> [u8; 16]
    ensures { result ≡ l ∷ m ∷ 0 ∷ 1 ∷ 0 ∷ 128 ∷ b }
{
    let mut v = [0; 16];
    base::put(&[l, m, 0, 1, 0, 128], &mut v, 0);
    base::put(&b, &mut v, 6);
    v
}

// A key of a tap, for a label.
fn tap_key(key: [u8; 16], l: u8, m: u8, t: Tap) -> Counted<16>
    ensures { result ≡ counted (tap_key key l m t) tap_key_cost }
{
    let v = vector(l, m, mirror_of(t).bytes);
    cmac::cmac_of(&key_expansion::expand(key), &v)
}

// The key of ENC, from the key of SDMFileRead.
pub fn tap_enc_key(key: [u8; 16], t: Tap) -> Counted<16>
    ensures { result ≡ counted (tap_enc_key key t) tap_key_cost }
{
    tap_key(key, 0xC3, 0x3C, t)
}

// The key of the MAC.
pub fn tap_mac_key(key: [u8; 16], t: Tap) -> Counted<16>
    ensures { result ≡ counted (tap_mac_key key t) tap_key_cost }
{
    tap_key(key, 0x3C, 0xC3, t)
}

// The vector of ENC, under round keys.
fn tap_vector(w: &[[u8; 16]; 11], counter: u32) -> Counted<16>
    ensures { result ≡ counted (cipher w.now (low 3 counter ++ replicate 13 0)) block_cost }
{
    let c = three(counter);
    aes::encrypt(w, [c[0], c[1], c[2], 0, 0, 0, 0, 0, 0, 0, 0, 0, 0, 0, 0, 0])
}

// The vector of ENC.
pub fn tap_iv(key: [u8; 16], counter: u32) -> Counted<16>
    ensures { result ≡ counted (tap_iv key counter) tap_iv_cost }
{
    tap_vector(&key_expansion::expand(key), counter)
}

// Encrypts the text of ENC in place, which is to be whole blocks. Says how many blocks it computed.
pub fn tap_encrypt(key: [u8; 16], counter: u32, text: &mut [u8]) -> Result<usize, Ragged>
    ensures { Hides key counter text.old result text.new }
{
    if text.len() % 16 != 0 {
        return Err(Ragged);
    }
    let w = key_expansion::expand(key);
    let v = tap_vector(&w, counter);
    let cost = cbc::cbc_encrypt(&w, v.bytes, text).unwrap();
    Ok(v.cost + cost)
}

// The eight bytes of MAC of a text.
pub fn tap_mac(key: [u8; 16], text: &[u8]) -> Counted<8>
    ensures { result ≡ counted (mac key text.now) (cmac_cost (length text.now)) }
{
    cmac::mac_of(&key_expansion::expand(key), text)
}
