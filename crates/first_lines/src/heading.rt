// Where a plan begins: behind a byte order mark, the first line that is not blank.
ghost use Rattle.std.specs.Prelude.{◌≡◌};
ghost use Rattle.first_lines.specs.Begins.{mark_in, silent_in, Begins};

use crate::FirstLine;
use crate::parts::is_blank;

// How many bytes a byte order mark, EF BB BF, takes at the front.
#[tactic(auto, unfolding(crate::specs::Begins::mark_in))]
fn mark(text: &[u8]) -> usize
    ensures { result ≡ mark_in text.now }
{
    match text {
        [0xEF, 0xBB, 0xBF, ..] => 3,
        _ => 0,
    }
}

// Whether nothing that counts stands on a line before its end or its '#'.
fn silent(line: &[u8]) -> bool
    ensures { result ≡ silent_in line.now }
{
    for &c in line {
        if c == b'#' {
            return true;
        }
        if !is_blank(c) {
            return false;
        }
    }
    true
}

// The first line that is not blank; where there is none, the text's end.
pub fn first_line(text: &[u8]) -> FirstLine
    ensures { Begins text.now result }
{
    let mut at = mark(text);
    let mut number: u64 = 1;
    while at < text.len() {
        let end = lines::find(text, at, b'\n');
        if !silent(&text[at..end]) {
            return FirstLine {
                start: at,
                end,
                number,
            };
        }
        number += 1;
        at = end + 1;
    }
    FirstLine {
        start: text.len(),
        end: text.len(),
        number,
    }
}
