// The characters of a line that count, and the bytes that they are.
ghost use Rattle.std.specs.Prelude.{◌≡◌, length, take};
ghost use Rattle.base.specs.Bytes.{over};
ghost use Rattle.first_lines.specs.Said.{is_blank, capital_of, tidied, good_bytes, bytes_room};

// A space, a tab, and the carriage return that may stand before a line's end.
#[tactic(auto, unfolding(crate::specs::Said::is_blank))]
pub fn is_blank(c: u8) -> bool
    ensures { result ≡ is_blank c }
{
    matches!(c, b' ' | b'\t' | b'\r')
}

// A digit a to f as A to F; any other character as it is.
#[tactic(auto, unfolding(crate::specs::Said::capital_of))]
fn capital(c: u8) -> u8
    ensures { result ≡ capital_of c }
{
    match c {
        b'a'..=b'f' => c - b'a' + b'A',
        _ => c,
    }
}

// The characters that count, as capitals, at the front of the room, as many as it takes.
pub fn tidy(line: &[u8], room: &mut [u8]) -> usize
    ensures count { result ≡ length (take (length room.old) (tidied line.now)) }
    ensures left { room.new ≡ over (take (length room.old) (tidied line.now)) room.old }
{
    let mut n = 0;
    for &c in line {
        if is_blank(c) {
            continue;
        }
        if n == room.len() {
            return n;
        }
        base::put(&[capital(c)], room, n);
        n += 1;
    }
    n
}

// Whether a text is as many bytes as the room has; they are then in it.
pub fn bytes_given(s: &[u8], room: &mut [u8]) -> bool
    ensures answer { result ≡ good_bytes (length room.old) s.now }
    ensures left { room.new ≡ bytes_room s.now room.old }
{
    s.len() / 2 == room.len() && lines::decode(s, room).is_ok()
}
