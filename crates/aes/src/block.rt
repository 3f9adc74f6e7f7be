// The block, both ways (FIPS 197, sections 5.1 and 5.3), over `words`. The tables are loaded once at an entry and lent on.
ghost use Rattle.std.specs.Prelude.{◌≡◌};
ghost use Rattle.aes.specs.Block.{xor_block, add_round_key, cipher, inv_cipher, counted, block_cost};
ghost use Rattle.aes.specs.ByTables.{with_key, mixed_by, sub_by, sub_column, shifted_by, Turns, Enciphers, unshifted_by, unmixed_by, TurnsBack, Deciphers};
ghost use Rattle.words.specs.Words.{block_of};

use crate::Counted;

// Two blocks summed (5.1.4).
pub fn xor_block(a: [u8; 16], b: [u8; 16]) -> [u8; 16]
    ensures { result ≡ xor_block a b }
{
    let mut r = [0; 16];
    for i in 0..16 {
        r[i] = a[i] ^ b[i];
    }
    r
}

// AddRoundKey (5.1.4).
fn with_key(s: [u32; 4], k: [u8; 16]) -> [u32; 4]
    ensures { (result ≡ with_key s k) × (block_of result ≡ add_round_key (block_of s) k) }
{
    let w = words::columns(k);
    [s[0] ^ w[0], s[1] ^ w[1], s[2] ^ w[2], s[3] ^ w[3]]
}

// SubBytes, ShiftRows and MixColumns at once (5.1.1 to 5.1.3).
#[tactic(auto, unfolding(crate::specs::ByTables::mixed_by))]
fn mix_columns(t: &[u32; 256], s: [u32; 4]) -> [u32; 4]
    ensures { result ≡ mixed_by t.now s }
{
    let [a, b, c, d] = s;
    [
        words::column(t, a, b, c, d),
        words::column(t, b, c, d, a),
        words::column(t, c, d, a, b),
        words::column(t, d, a, b, c),
    ]
}

// InvMixColumns (5.3.3).
#[tactic(auto, unfolding(crate::specs::ByTables::unmixed_by))]
fn unmix_columns(u: &[u32; 256], s: [u32; 4]) -> [u32; 4]
    ensures { result ≡ unmixed_by u.now s }
{
    let [a, b, c, d] = s;
    [
        words::column(u, a, a, a, a),
        words::column(u, b, b, b, b),
        words::column(u, c, c, c, c),
        words::column(u, d, d, d, d),
    ]
}

// A byte through the S-box, which is row 1 of its word.
#[tactic(auto, unfolding(crate::specs::ByTables::sub_by))]
fn sub(t: &[u32; 256], x: u32) -> u8
    ensures { result ≡ sub_by t.now x }
{
    let [row_0, _, _, _] = x.to_le_bytes();
    let [_, row_1, _, _] = t[usize::from(row_0)].to_le_bytes();
    row_1
}

// The S-box's bytes for row 0 of a, row 1 of b, row 2 of c and row 3 of d.
#[tactic(auto, unfolding(crate::specs::ByTables::sub_column))]
fn sub_column(t: &[u32; 256], a: u32, b: u32, c: u32, d: u32) -> u32
    ensures { result ≡ sub_column t.now a b c d }
{
    words::pack(sub(t, a), sub(t, b >> 8), sub(t, c >> 16), sub(t, d >> 24))
}

// SubBytes, then ShiftRows (5.1.1, 5.1.2).
#[tactic(auto, unfolding(crate::specs::ByTables::shifted_by))]
fn sub_shift(t: &[u32; 256], s: [u32; 4]) -> [u32; 4]
    ensures { result ≡ shifted_by t.now s }
{
    let [a, b, c, d] = s;
    [
        sub_column(t, a, b, c, d),
        sub_column(t, b, c, d, a),
        sub_column(t, c, d, a, b),
        sub_column(t, d, a, b, c),
    ]
}

// InvShiftRows, then InvSubBytes (5.3.1, 5.3.2).
#[tactic(auto, unfolding(crate::specs::ByTables::unshifted_by))]
fn shift_sub(v: &[u8; 256], s: [u32; 4]) -> [u32; 4]
    ensures { result ≡ unshifted_by v.now s }
{
    let [a, b, c, d] = s;
    [
        words::picked(v, a, d, c, b),
        words::picked(v, b, a, d, c),
        words::picked(v, c, b, a, d),
        words::picked(v, d, c, b, a),
    ]
}

// One whole round (5.1).
fn round(t: &[u32; 256], s: [u32; 4], k: [u8; 16]) -> [u32; 4]
    ensures { Turns t.now s k result }
{
    with_key(mix_columns(t, s), k)
}

// One round back (5.3).
fn round_back(v: &[u8; 256], u: &[u32; 256], s: [u32; 4], k: [u8; 16]) -> [u32; 4]
    ensures { TurnsBack v.now u.now s k result }
{
    unmix_columns(u, with_key(shift_sub(v, s), k))
}

// The cipher on one block, by a lent table of words; with `sbox::mixing` it is the standard's.
pub fn encrypt_with(t: &[u32; 256], w: &[[u8; 16]; 11], s: [u8; 16]) -> Counted<16>
    ensures { Enciphers t.now w.now s result }
{
    let mut x = with_key(words::columns(s), w[0]);
    for i in 1..10 {
        let next = round(t, x, w[i]);
        x = next;
    }
    Counted {
        bytes: words::bytes_of(with_key(sub_shift(t, x), w[10])),
        cost: 1,
    }
}

// The cipher on one block.
pub fn encrypt(w: &[[u8; 16]; 11], s: [u8; 16]) -> Counted<16>
    ensures { result ≡ counted (cipher w.now s) block_cost }
{
    encrypt_with(&sbox::mixing(), w, s)
}

// The inverse cipher on one block, by lent tables; with `sbox::backward` and `sbox::unmixing` it is the standard's.
pub fn decrypt_with(v: &[u8; 256], u: &[u32; 256], w: &[[u8; 16]; 11], s: [u8; 16]) -> Counted<16>
    ensures { Deciphers v.now u.now w.now s result }
{
    let mut x = with_key(words::columns(s), w[10]);
    for i in (1..10).rev() {
        let next = round_back(v, u, x, w[i]);
        x = next;
    }
    Counted {
        bytes: words::bytes_of(with_key(shift_sub(v, x), w[0])),
        cost: 1,
    }
}

// The inverse cipher on one block.
pub fn decrypt(w: &[[u8; 16]; 11], s: [u8; 16]) -> Counted<16>
    ensures { result ≡ counted (inv_cipher w.now s) block_cost }
{
    decrypt_with(&sbox::backward(), &sbox::unmixing(), w, s)
}
