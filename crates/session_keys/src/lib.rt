// The session keys (9.1.7).
#![tactic(auto)]

ghost use Rattle.std.specs.Prelude.{◌≡◌, ◌∷◌};
ghost use Rattle.session_keys.specs.Keys.{context, session_keys};

// The keys of a session, and how many blocks were computed for them.
#[derive(Clone, Copy, Debug, PartialEq, Eq)]
pub struct Keys {
    pub enc: [u8; 16],
    pub mac: [u8; 16],
    pub cost: usize,
}

// The input of a key: a label, and the context of both random numbers.
fn vector(l: u8, m: u8, a: [u8; 16], b: [u8; 16]) -> [u8; 32]
    ensures { result ≡ l ∷ m ∷ context a b }
{
    let mut v = [0; 32];
    let x = [
        a[2] ^ b[0],
        a[3] ^ b[1],
        a[4] ^ b[2],
        a[5] ^ b[3],
        a[6] ^ b[4],
        a[7] ^ b[5],
    ];
    base::put(&[l, m, 0, 1, 0, 128], &mut v, 0);
    base::put(&a[..2], &mut v, 6);
    base::put(&x, &mut v, 8);
    base::put(&b[6..], &mut v, 14);
    base::put(&a[8..], &mut v, 24);
    v
}

// Both keys, from Kx, RndA and RndB.
pub fn session_keys(kx: [u8; 16], a: [u8; 16], b: [u8; 16]) -> Keys
    ensures { result ≡ session_keys kx a b }
{
    let w = key_expansion::expand(kx);
    let one = vector(0xA5, 0x5A, a, b);
    let two = vector(0x5A, 0xA5, a, b);
    let e = cmac::cmac_of(&w, &one);
    let m = cmac::cmac_of(&w, &two);
    let enc = e.bytes;
    let mac = m.bytes;
    Keys {
        enc,
        mac,
        cost: e.cost + m.cost,
    }
}
