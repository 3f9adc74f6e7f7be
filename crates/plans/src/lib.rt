// What a line of a plan means, or why it is bad. A plan's lines are commands in hexadecimal; '#' starts a comment, '/' the
// command's random bytes, and '=' what its reply must be.
#![tactic(auto)]

ghost use Rattle.std.specs.Prelude.{◌≡◌};
ghost use Rattle.plans.specs.Numbers.{Means};
ghost use Rattle.plans.specs.Plan.{decode_reason};

use lines::DecodeError;

mod parts;

// Why a line is bad.
#[derive(Clone, Copy, Debug, PartialEq, Eq)]
pub enum Reason {
    NoCommand,
    Stray,
    OddDigits,
    TooLong,
    BadRandom,
    BadExpected,
}

impl From<DecodeError> for Reason {
    ghost from_gives = { λ e r. r ≡ decode_reason e };

    fn from(e: DecodeError) -> Reason {
        match e {
            DecodeError::NotHex => Reason::OddDigits,
            DecodeError::RoomTooSmall => Reason::TooLong,
        }
    }
}

// What a line asks for: a command of so many bytes with random bytes of the machine, or with those that it brings.
#[derive(Clone, Copy, Debug, PartialEq, Eq)]
pub enum Meaning {
    Blank,
    Drawn(usize),
    Given(usize),
}

// A line: what it asks for, and how many bytes of the reply it expects, 0 where it expects nothing.
#[derive(Clone, Copy, Debug, PartialEq, Eq)]
pub struct Line {
    pub meaning: Meaning,
    pub expected: usize,
}

// What a line means. The command's bytes are at the front of their room, random bytes that it brings in theirs, and the bytes that it
// expects at the front of theirs.
pub fn line_meaning(
    line: &[u8],
    command: &mut [u8],
    random: &mut [u8],
    expected: &mut [u8],
) -> Result<Line, Reason>
    ensures { Means line.now command.old random.old expected.old result
        command.new random.new expected.new }
{
    let mut q = [0u8; 1700];
    let e = lines::find(line, 0, b'#');
    let n = first_lines::tidy(&line[..e], &mut q);
    parts::tidy_line(&q[..n], command, random, expected)
}
