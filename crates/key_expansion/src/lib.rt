// The key expansion (FIPS 197, section 5.2), a round key at a time, as four words.
#![tactic(auto)]

ghost use Rattle.std.specs.Prelude.{◌≡◌};
ghost use Rattle.sbox.specs.Field.{xtime};
ghost use Rattle.sbox.specs.Tables.{sbox};
ghost use Rattle.key_expansion.specs.Keys.{key_expansion};
ghost use Rattle.key_expansion.specs.NextKey.{first_word, next_key};
ghost use Rattle.words.specs.Words.{rows, block_of};

// A byte times x (4.2.1).
#[tactic(auto, unfolding(sbox::specs::Field::xtime))]
fn double(x: u8) -> u8
    ensures { result ≡ xtime x }
{
    (x % 128 * 2) ^ (x / 128 % 2 * 27)
}

// The first word of the next round key: SubWord of RotWord of the last word, with Rcon, and the first word.
fn first_word(t: &[u8; 256], a: u32, d: u32, rc: u8) -> u32
    requires { t.now ≡ sbox }
    ensures { rows result ≡ first_word sbox rc (rows a) (rows d) }
{
    let [w, x, y, z] = d.to_le_bytes();
    a ^ words::pack(
        t[usize::from(x)] ^ rc,
        t[usize::from(y)],
        t[usize::from(z)],
        t[usize::from(w)],
    )
}

// The round key behind a round key.
fn next_key(t: &[u8; 256], k: [u32; 4], rc: u8) -> [u32; 4]
    requires { t.now ≡ sbox }
    ensures { block_of result ≡ next_key sbox rc (block_of k) }
{
    let a = first_word(t, k[0], k[3], rc);
    let b = k[1] ^ a;
    let c = k[2] ^ b;
    let d = k[3] ^ c;
    [a, b, c, d]
}

// The eleven round keys of a key.
pub fn expand(key: [u8; 16]) -> [[u8; 16]; 11]
    ensures { result ≡ key_expansion key }
{
    let t = sbox::forward();
    let mut w = [key; 11];
    let mut k = words::columns(key);
    let mut rc = 1;
    for i in 1..11 {
        let next = next_key(&t, k, rc);
        k = next;
        rc = double(rc);
        w[i] = words::bytes_of(k);
    }
    w
}
