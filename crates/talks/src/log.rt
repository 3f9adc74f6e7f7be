// The lines of a log. A line ends at a newline or at the end; a carriage return before that does not count.
ghost use Rattle.std.specs.Prelude.{◌≡◌};
ghost use Rattle.talks.specs.Log.{solid, trimmed, counted, without_return, next_line, after_three, read_as, field_in, field_at};

use crate::Unread;
use buffers::Buffer;

// Whether a byte is no part of a line's end.
#[tactic(auto, unfolding(crate::specs::Log::solid))]
fn solid(b: u8) -> bool
    ensures { result ≡ solid b }
{
    !matches!(b, b'\n' | b'\r')
}

// Where a text ends if blank lines at its end don't count.
pub fn last(text: &[u8]) -> usize
    ensures { result ≡ trimmed text.now }
{
    let mut n = text.len();
    while 0 < n && !solid(text[n - 1]) {
        n -= 1;
    }
    n
}

// Where the next line begins, or the end.
#[tactic(auto, unfolding(crate::specs::Log::next_line))]
pub fn next(text: &[u8], at: usize) -> usize
    ensures { result ≡ next_line text.now at }
{
    let end = lines::find(text, at, b'\n');
    if end < text.len() {
        end + 1
    } else {
        text.len()
    }
}

// Where the line behind three begins, or the end.
#[tactic(auto, unfolding(crate::specs::Log::after_three))]
pub fn after(text: &[u8], at: usize) -> usize
    ensures { result ≡ after_three text.now at }
{
    next(text, next(text, next(text, at)))
}

// How many bytes of a line count.
#[tactic(auto, using(crate::proofs::Reading::counted_none), unfolding(crate::specs::Log::counted))]
fn counted(line: &[u8]) -> usize
    ensures { result ≡ counted line.now }
{
    match line {
        [.., b'\r'] => line.len() - 1,
        _ => line.len(),
    }
}

// The bytes of a text of digits, or why there are none.
#[tactic(auto, using(crate::proofs::Reading::digits_front), unfolding(crate::specs::Log::field_in, lines::specs::Hex::decoded, lines::specs::Hex::decoded_room))]
fn of_digits(digits: &[u8]) -> Result<Buffer<300>, Unread>
    ensures { read_as result ≡ field_in digits.now }
{
    let mut bytes = [0u8; 300];
    let length = lines::decode(digits, &mut bytes)?;
    Ok(Buffer { bytes, length })
}

fn of_line(line: &[u8]) -> Result<Buffer<300>, Unread>
    ensures { read_as result ≡ field_in (without_return line.now) }
{
    of_digits(&line[..counted(line)])
}

// The line that begins at a place.
pub fn read(text: &[u8], at: usize) -> Result<Buffer<300>, Unread>
    ensures { read_as result ≡ field_at text.now at }
{
    if text.len() <= at {
        return Err(Unread::Missing);
    }
    let end = lines::find(text, at, b'\n');
    of_line(&text[at..end])
}
