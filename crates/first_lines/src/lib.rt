// A plan's first line that is not blank, where a plan begins: behind a byte order mark, the tag's UID. And what a line says: '#' starts a
// comment, and the other characters count as capitals, blanks aside.
#![tactic(auto)]

ghost use Rattle.std.specs.Prelude.{◌≡◌};
ghost use Rattle.first_lines.specs.Said.{uid_in};

mod heading;
mod parts;

pub use heading::first_line;
pub use parts::{bytes_given, tidy};

// The first line of a plan that is not blank: its first character, its end and its number.
#[derive(Clone, Copy, Debug, PartialEq, Eq)]
pub struct FirstLine {
    pub start: usize,
    pub end: usize,
    pub number: u64,
}

// The UID of 7 bytes that a line says.
pub fn line_uid(line: &[u8]) -> Option<[u8; 7]>
    ensures { result ≡ uid_in line.now }
{
    let mut q = [0u8; 1700];
    let mut uid = [0u8; 7];
    let e = lines::find(line, 0, b'#');
    let n = parts::tidy(&line[..e], &mut q);
    if parts::bytes_given(&q[..n], &mut uid) {
        Some(uid)
    } else {
        None
    }
}
