// Bytes in hexadecimal, and as text.
ghost use Rattle.std.specs.Prelude.{◌≡◌, ◌≤◌, length};
ghost use Rattle.forms.specs.Rooms.{Writes};
ghost use Rattle.telling.specs.Plain.{spaced_of, is_printable, dotted_of, dotted, printables_in, before_zeros, plain_text, text_line};

use forms::Page;

// Bytes in hexadecimal, a space before each.
pub fn spaced(s: &[u8], page: &mut Page<'_>)
    ensures { Writes (spaced_of s.now) page.old page.new }
{
    for &b in s {
        page.append(&[b' ', lines::character(b / 16), lines::character(b)]);
    }
}

#[tactic(auto, unfolding(crate::specs::Plain::is_printable))]
fn is_printable(c: u8) -> bool
    ensures { result ≡ is_printable c }
{
    matches!(c, b' '..=b'~')
}

// How many bytes are printable characters.
#[tactic(auto, unfolding(crate::specs::Plain::printables_in))]
fn printables(s: &[u8]) -> usize
    ensures { result ≡ printables_in s.now }
{
    s.iter().filter(|&&c| is_printable(c)).count()
}

// How many bytes there are before the zeros at the end: a file that is read whole ends in them.
fn before_zeros(s: &[u8]) -> usize
    ensures fits { result ≤ length s.now }
    ensures told { result ≡ before_zeros (length s.now) s.now }
{
    let mut n = s.len();
    while 0 < n && s[n - 1] == 0 {
        n -= 1;
    }
    n
}

// A dot for a byte that is no printable character.
#[tactic(auto, unfolding(crate::specs::Plain::dotted_of))]
fn dot(c: u8) -> u8
    ensures { result ≡ dotted_of c }
{
    if is_printable(c) { c } else { b'.' }
}

fn characters(s: &[u8], page: &mut Page<'_>)
    ensures { Writes (dotted s.now) page.old page.new }
{
    for &c in s {
        page.append(&[dot(c)]);
    }
}

// A line with bytes as text, where three quarters of them are printable.
fn text(s: &[u8], page: &mut Page<'_>)
    ensures { Writes (plain_text s.now) page.old page.new }
{
    if printables(s) < s.len() - s.len() / 4 {
        return;
    }
    page.append(b"  text: ");
    characters(s, page);
    page.append(b"\n");
}

// The same of data, without zeros at the end; nothing where none is left.
pub fn text_line(s: &[u8], page: &mut Page<'_>)
    ensures { Writes (text_line s.now) page.old page.new }
{
    let n = before_zeros(s);
    if n == 0 {
        return;
    }
    text(&s[..n], page);
}
