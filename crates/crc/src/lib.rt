// The CRC of a changed key (10.6.1).
#![tactic(auto)]

ghost use Rattle.std.specs.Prelude.{◌≡◌};
ghost use Rattle.std.specs.Int.Bits.{bit_xor};
ghost use Rattle.crc.specs.Crc.{crc_bit, crc_bits, crc};

// One bit.
#[tactic(auto, unfolding(crate::specs::Crc::crc_bit))]
fn crc_bit(c: u32) -> u32
    ensures { result ≡ crc_bit c }
{
    if c % 2 == 1 {
        (c >> 1) ^ 0xEDB88320
    } else {
        c >> 1
    }
}

// One byte.
fn crc_byte(c: u32, b: u8) -> u32
    ensures { result ≡ crc_bits 8 (bit_xor c b) }
{
    let mut v = c ^ u32::from(b);
    for _ in 0..8usize {
        v = crc_bit(v);
    }
    v
}

// The CRC of bytes, low byte first.
pub fn crc_of(s: &[u8]) -> [u8; 4]
    ensures { result ≡ crc s.now }
{
    let mut c = 0xFFFFFFFF;
    for b in s {
        c = crc_byte(c, *b);
    }
    c.to_le_bytes()
}
