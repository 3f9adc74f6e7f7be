// The two parts of an authentication (9.1.5, 9.1.6, 10.4.1, 10.4.2).
#![tactic(auto)]

ghost use Rattle.std.specs.Prelude.{◌≡◌, ◌%◌, length};
ghost use Rattle.authentication.specs.Authentication.{enciphered, deciphered, turned, part_two, first_reply, next_reply, part_one_cost, first_reply_cost, next_reply_cost};
ghost use Rattle.aes.specs.Block.{counted};
ghost use Rattle.cbc.specs.Cbc.{cbc_cost};

use aes::Counted;

// Why part two is refused.
#[derive(Clone, Copy, Debug, PartialEq, Eq)]
pub enum Wrong {
    // 917E.
    NotThirtyTwo,
    // 91AE.
    WrongRndB,
}

// RndA of part two, and how many blocks were computed.
#[derive(Clone, Copy, Debug, PartialEq, Eq)]
pub struct PartTwo {
    pub a: Result<[u8; 16], Wrong>,
    pub cost: usize,
}

// E(Kx; whole blocks).
fn encipher<const N: usize>(kx: [u8; 16], x: [u8; N]) -> Counted<N>
    requires { N % 16 ≡ 0 }
    ensures { result ≡ counted (enciphered kx x.entry) (cbc_cost N) }
{
    let w = key_expansion::expand(kx);
    let mut bytes = x;
    let cost = cbc::cbc_encrypt(&w, [0; 16], &mut bytes).unwrap();
    Counted { bytes, cost }
}

// Turned to the left by one byte.
#[tactic(auto, unfolding(crate::specs::Authentication::turned))]
fn turn(x: [u8; 16]) -> [u8; 16]
    ensures { result ≡ turned x }
{
    let mut r = x;
    r.rotate_left(1);
    r
}

// The reply of part one: E(Kx; RndB).
pub fn part_one(kx: [u8; 16], b: [u8; 16]) -> Counted<16>
    ensures { result ≡ counted (enciphered kx b) part_one_cost }
{
    encipher(kx, b)
}

// RndA and RndB' of a part two of 32 bytes.
fn decipher(kx: [u8; 16], x: &[u8]) -> Counted<32>
    requires { length x.now ≡ 32 }
    ensures { result ≡ counted (deciphered kx x.now) (cbc_cost 32) }
{
    let w = key_expansion::expand(kx);
    let mut bytes = [0; 32];
    bytes.copy_from_slice(x);
    let cost = cbc::cbc_decrypt(&w, [0; 16], &mut bytes).unwrap();
    Counted { bytes, cost }
}

// Checks part two.
pub fn check_part_two(kx: [u8; 16], b: [u8; 16], x: &[u8]) -> PartTwo
    ensures { result ≡ part_two kx b x.now }
{
    if x.len() != 32 {
        return PartTwo {
            a: Err(Wrong::NotThirtyTwo),
            cost: 0,
        };
    }
    let p = decipher(kx, x);
    if !base::alike(&p.bytes[16..], &turn(b)) {
        return PartTwo {
            a: Err(Wrong::WrongRndB),
            cost: p.cost,
        };
    }
    let mut a = [0; 16];
    a.copy_from_slice(&p.bytes[..16]);
    PartTwo {
        a: Ok(a),
        cost: p.cost,
    }
}

// The reply of part two of 71: TI, RndA', PDcap2 and PCDcap2.
pub fn first_reply(kx: [u8; 16], ti: [u8; 4], a: [u8; 16], cap: [u8; 6]) -> Counted<32>
    ensures { result ≡ counted (first_reply kx ti a cap) first_reply_cost }
{
    let mut reply = [0; 32];
    base::put(&ti, &mut reply, 0);
    base::put(&turn(a), &mut reply, 4);
    base::put(&[0; 6], &mut reply, 20);
    base::put(&cap, &mut reply, 26);
    encipher(kx, reply)
}

// The reply of part two of 77: RndA'.
pub fn next_reply(kx: [u8; 16], a: [u8; 16]) -> Counted<16>
    ensures { result ≡ counted (next_reply kx a) next_reply_cost }
{
    encipher(kx, turn(a))
}
