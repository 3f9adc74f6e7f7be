// Lines, words and capital hexadecimal, for the programs that run vectors.
#![tactic(auto)]

ghost use Rattle.std.specs.Prelude.{◌≡◌, ◌*◌, ◌/◌, ◌%◌, leb, length};
ghost use Rattle.base.specs.Decide.{pick};
ghost use Rattle.lines.specs.Lines.{seek};
ghost use Rattle.lines.specs.Hex.{digit_of, char_of, is_hex, byte_of, bytes_of, chars_room, decoded_number, decoded, decoded_room};

// Why decoding gives no bytes.
#[derive(Clone, Copy, Debug, PartialEq, Eq)]
pub enum DecodeError {
    NotHex,
    RoomTooSmall,
}

// The first place of a byte from an index on, or the end: a line ends at 10, a word at 32.
pub fn find(text: &[u8], at: usize, b: u8) -> usize
    ensures { result ≡ seek text.now at b }
{
    let rest = text.get(at..).unwrap_or(&[]);
    at + rest.iter().position(|&x| x == b).unwrap_or(rest.len())
}

// The value of a digit.
#[tactic(auto, unfolding(crate::specs::Hex::digit_of))]
pub fn digit(c: u8) -> Option<u8>
    ensures { result ≡ digit_of c }
{
    match c {
        b'0'..=b'9' => Some(c - b'0'),
        b'A'..=b'F' => Some(c - b'A' + 10),
        _ => None,
    }
}

// The character of a value below 16.
#[tactic(auto, unfolding(crate::specs::Hex::char_of))]
pub fn character(v: u8) -> u8
    ensures { result ≡ char_of (v % 16) }
{
    let d = v % 16;
    if d < 10 { b'0' + d } else { b'A' + d - 10 }
}

// Whether a text is an even number of digits.
pub fn is_hex(text: &[u8]) -> bool
    ensures { result ≡ is_hex text.now }
{
    text.len() % 2 == 0 && text.iter().all(|&c| digit(c).is_some())
}

// The byte of two digits.
fn byte(a: u8, b: u8) -> u8
    ensures { result ≡ byte_of a b }
{
    digit(a).unwrap_or(0) * 16 + digit(b).unwrap_or(0)
}

// Two characters to a byte, for as many bytes as the room has.
fn fill(text: &[u8], room: &mut [u8])
    requires { length text.now ≡ length room.old * 2 }
    ensures { room.new ≡ bytes_of text.now }
{
    for i in 0..room.len() {
        room[i] = byte(text[i * 2], text[i * 2 + 1]);
    }
}

// The bytes that a text of digits stands for, at the front of the room, and how many. A refusal leaves the room.
pub fn decode(text: &[u8], room: &mut [u8]) -> Result<usize, DecodeError>
    ensures answer { result ≡ decoded text.now room.old }
    ensures left { room.new ≡ decoded_room text.now room.old }
    ensures number { decoded_number result ≡ pick (is_hex text.now) (pick (leb (length text.now / 2) (length room.old)) 0 2) 1 }
{
    if !is_hex(text) {
        return Err(DecodeError::NotHex);
    }
    let n = text.len() / 2;
    if room.len() < n {
        return Err(DecodeError::RoomTooSmall);
    }
    fill(text, &mut room[..n]);
    Ok(n)
}

// The digits of bytes at the front of the room. Where they do not fit, the room stays as it is.
pub fn encode(s: &[u8], room: &mut [u8])
    ensures { room.new ≡ chars_room s.now room.old }
{
    if room.len() < s.len() * 2 {
        return;
    }
    for (i, &x) in s.iter().enumerate() {
        base::put(&[character(x / 16), character(x)], room, i * 2);
    }
}
