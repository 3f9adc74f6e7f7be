// The characters of a line: those that count, the digits among them, and what they mean.
ghost use Rattle.std.specs.Prelude.{◌≡◌, length};
ghost use Rattle.first_lines.specs.Said.{good_bytes, bytes_room};
ghost use Rattle.plans.specs.Numbers.{digits_number, digits_case};
ghost use Rattle.plans.specs.Plan.{stray_in, digits_of, digits_room};
ghost use Rattle.plans.specs.Plan.{given_by, meaning_of, command_room, random_room, expecting_by};
ghost use Rattle.plans.specs.Plan.{line_of, line_command, line_random, line_expected};

use crate::{Line, Meaning, Reason};

// Whether a character is no digit.
fn stray(s: &[u8]) -> bool
    ensures { result ≡ stray_in s.now }
{
    s.iter().any(|&c| lines::digit(c).is_none())
}

// The bytes of a command, or of what it expects, at the front of the room: how many, or why there are none.
#[tactic(auto, unfolding(crate::specs::Plan::digits_of, crate::specs::Plan::digits_room, crate::specs::Numbers::digits_case, crate::specs::Numbers::digits_number, crate::specs::Numbers::reason_number))]
fn command_bytes(s: &[u8], room: &mut [u8]) -> Result<usize, Reason>
    ensures answer { result ≡ digits_of s.now room.old }
    ensures left { room.new ≡ digits_room s.now room.old }
    ensures number { digits_number result ≡ digits_case s.now room.old }
{
    if s.is_empty() {
        return Err(Reason::NoCommand);
    }
    if stray(s) {
        return Err(Reason::Stray);
    }
    Ok(lines::decode(s, room)?)
}

// A command and the random bytes behind its '/'.
fn with_random(
    front: &[u8],
    back: &[u8],
    command: &mut [u8],
    random: &mut [u8],
) -> Result<Meaning, Reason>
    ensures answer { result ≡ given_by (good_bytes (length random.old) back.now) (digits_of front.now command.old) }
    ensures command { command.new ≡ digits_room front.now command.old }
    ensures random { random.new ≡ bytes_room back.now random.old }
{
    let good = first_lines::bytes_given(back, random);
    let n = command_bytes(front, command)?;
    if good {
        Ok(Meaning::Given(n))
    } else {
        Err(Reason::BadRandom)
    }
}

// What the part of a tidied line before '=' means.
#[tactic(auto, using(crate::proofs::Long::from_on), unfolding(crate::specs::Plan::meaning_of, crate::specs::Plan::command_room, crate::specs::Plan::random_room, crate::specs::Plan::slash))]
fn tidy_meaning(s: &[u8], command: &mut [u8], random: &mut [u8]) -> Result<Meaning, Reason>
    ensures answer { result ≡ meaning_of s.now command.old random.old }
    ensures command { command.new ≡ command_room s.now command.old }
    ensures random { random.new ≡ random_room s.now random.old }
{
    if s.is_empty() {
        return Ok(Meaning::Blank);
    }
    let at = lines::find(s, 0, b'/');
    if at < s.len() {
        return with_random(&s[..at], &s[at + 1..], command, random);
    }
    let n = command_bytes(s, command)?;
    Ok(Meaning::Drawn(n))
}

// A line that has '=', by what stands before and behind it.
fn expecting(
    meaning: Result<Meaning, Reason>,
    awaited: Result<usize, Reason>,
) -> Result<Line, Reason>
    ensures { result ≡ expecting_by meaning awaited }
{
    let meaning = meaning?;
    if meaning == Meaning::Blank {
        return Err(Reason::NoCommand);
    }
    let expected = awaited.map_err(|_| Reason::BadExpected)?;
    Ok(Line { meaning, expected })
}

// What a tidied line means.
#[tactic(auto, using(crate::proofs::Long::from_on), unfolding(crate::specs::Plan::line_of, crate::specs::Plan::line_command, crate::specs::Plan::line_random, crate::specs::Plan::line_expected, crate::specs::Plan::equals))]
pub fn tidy_line(
    s: &[u8],
    command: &mut [u8],
    random: &mut [u8],
    expected: &mut [u8],
) -> Result<Line, Reason>
    ensures answer { result ≡ line_of s.now command.old random.old expected.old }
    ensures command { command.new ≡ line_command s.now command.old }
    ensures random { random.new ≡ line_random s.now random.old }
    ensures expected { expected.new ≡ line_expected s.now expected.old }
{
    if 1700 <= s.len() {
        return Err(Reason::TooLong);
    }
    let at = lines::find(s, 0, b'=');
    if at < s.len() {
        let meaning = tidy_meaning(&s[..at], command, random);
        let awaited = command_bytes(&s[at + 1..], expected);
        return expecting(meaning, awaited);
    }
    let meaning = tidy_meaning(s, command, random)?;
    Ok(Line {
        meaning,
        expected: 0,
    })
}
