// A block as four words, one for each column: how the floors above compute it (FIPS 197, 3.5).
#![tactic(auto)]

ghost use Rattle.std.specs.Prelude.{◌≡◌};
ghost use Rattle.sbox.specs.Words.{packed};
ghost use Rattle.words.specs.Words.{rows, block_of, words_of, column_of, picked_of};

// The word of four bytes.
pub fn pack(a: u8, b: u8, c: u8, d: u8) -> u32
    ensures { result ≡ packed a b c d }
{
    u32::from_le_bytes([a, b, c, d])
}

// The four words of a block.
pub fn columns(s: [u8; 16]) -> [u32; 4]
    ensures { (result ≡ words_of s) × (block_of result ≡ s) }
{
    [
        pack(s[0], s[1], s[2], s[3]),
        pack(s[4], s[5], s[6], s[7]),
        pack(s[8], s[9], s[10], s[11]),
        pack(s[12], s[13], s[14], s[15]),
    ]
}

// The block of four words.
#[tactic(auto, unfolding(crate::specs::Words::block_of, crate::specs::Words::rows))]
pub fn bytes_of(s: [u32; 4]) -> [u8; 16]
    ensures { result ≡ block_of s }
{
    let a = s[0].to_le_bytes();
    let b = s[1].to_le_bytes();
    let c = s[2].to_le_bytes();
    let d = s[3].to_le_bytes();
    [
        a[0], a[1], a[2], a[3], b[0], b[1], b[2], b[3], c[0], c[1], c[2], c[3], d[0], d[1], d[2],
        d[3],
    ]
}

// A table's words for row 0 of a, row 1 of b, row 2 of c and row 3 of d, summed.
pub fn column(t: &[u32; 256], a: u32, b: u32, c: u32, d: u32) -> u32
    ensures { result ≡ column_of t.now a b c d }
{
    let [w, _, _, _] = a.to_le_bytes();
    let [_, x, _, _] = b.to_le_bytes();
    let [_, _, y, _] = c.to_le_bytes();
    let [_, _, _, z] = d.to_le_bytes();
    t[usize::from(w)]
        ^ t[usize::from(x)].rotate_left(8)
        ^ t[usize::from(y)].rotate_left(16)
        ^ t[usize::from(z)].rotate_left(24)
}

// A table's bytes for row 0 of a, row 1 of b, row 2 of c and row 3 of d.
#[tactic(auto, unfolding(crate::specs::Words::picked_of))]
pub fn picked(v: &[u8; 256], a: u32, b: u32, c: u32, d: u32) -> u32
    ensures { result ≡ picked_of v.now a b c d }
{
    let [w, _, _, _] = a.to_le_bytes();
    let [_, x, _, _] = b.to_le_bytes();
    let [_, _, y, _] = c.to_le_bytes();
    let [_, _, _, z] = d.to_le_bytes();
    pack(
        v[usize::from(w)],
        v[usize::from(x)],
        v[usize::from(y)],
        v[usize::from(z)],
    )
}
