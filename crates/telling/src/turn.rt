// What is printed of a line of a plan.
ghost use Rattle.std.specs.Prelude.{◌≡◌, take};
ghost use Rattle.forms.specs.Rooms.{Lays, Writes};
ghost use Rattle.plans.specs.Numbers.{reason_number};
ghost use Rattle.telling.specs.Turns.{skipped_text, played_text, line_text};

use crate::Why;
use crate::decision::access_line;
use crate::exchanges::{exchange, unlike};
use crate::work::blocks_line;
use forms::Page;
use plans::{Meaning, Reason};

// Why a line is bad, by number.
#[tactic(auto, unfolding(plans::specs::Numbers::reason_number))]
fn number_of(r: Reason) -> u8
    ensures { result ≡ reason_number r }
{
    match r {
        Reason::NoCommand => 1,
        Reason::Stray => 2,
        Reason::OddDigits => 3,
        Reason::TooLong => 4,
        Reason::BadRandom => 5,
        Reason::BadExpected => 6,
    }
}

// Says why a line is skipped.
fn skipped(number: u64, reason: u8, page: &mut Page<'_>)
    ensures { Writes (skipped_text number reason) page.old page.new }
{
    page.append_form(
        b"line #: {no command before '/' or '='}{a character that is no hexadecimal digit}{an odd number of digits}\
{more than 512 bytes}{behind '/' there must be 20 bytes, 40 digits}\
{behind '=' there must be 1 to 258 bytes, two digits each, and it comes last}{the machine gives no random bytes}; skipped\n",
        &[number],
        &[
            reason == 1,
            reason == 2,
            reason == 3,
            reason == 4,
            reason == 5,
            reason == 6,
            reason == 7,
        ],
    );
}

// The first n bytes of a command, its reply, how it was granted, the AES blocks that it took and, where the reply is not as expected, what was.
fn played(
    number: u64,
    n: usize,
    c: &[u8],
    reply: &[u8],
    why: Why,
    blocks: u64,
    e: &[u8],
    unmet: bool,
    page: &mut Page<'_>,
)
    ensures { Writes (played_text number (take n c.now) reply.now why blocks e.now unmet) page.old page.new }
{
    let command = c.get(..n).unwrap_or(c);
    exchange(number, command, reply, page);
    access_line(why, page);
    blocks_line(blocks, page);
    if unmet {
        unlike(e, page);
    }
}

// What a line did: its command is the first bytes of c.
fn turn(
    number: u64,
    meaning: Result<Meaning, Reason>,
    c: &[u8],
    reply: &[u8],
    why: Why,
    blocks: u64,
    e: &[u8],
    undrawn: bool,
    unmet: bool,
    page: &mut Page<'_>,
)
    ensures { Writes (line_text number meaning c.now reply.now why blocks e.now undrawn unmet) page.old page.new }
{
    match meaning {
        Err(reason) => skipped(number, number_of(reason), page),
        Ok(asked) => match asked {
            Meaning::Blank => {}
            Meaning::Drawn(n) => {
                if undrawn {
                    skipped(number, 7, page);
                } else {
                    played(number, n, c, reply, why, blocks, e, unmet, page);
                }
            }
            Meaning::Given(n) => played(number, n, c, reply, why, blocks, e, unmet, page),
        },
    }
}

// What a line with this number did, at the front of the room: its command is the first bytes of c.
pub fn line_text(
    number: u64,
    meaning: Result<Meaning, Reason>,
    c: &[u8],
    reply: &[u8],
    why: Why,
    blocks: u64,
    e: &[u8],
    undrawn: bool,
    unmet: bool,
    room: &mut [u8],
) -> usize
    ensures { Lays (line_text number meaning c.now reply.now why blocks e.now undrawn unmet) 0 room.old result room.new }
{
    let mut page = Page { room, used: 0 };
    turn(
        number, meaning, c, reply, why, blocks, e, undrawn, unmet, &mut page,
    );
    page.used
}
