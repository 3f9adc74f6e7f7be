// The lines of a plan, each with the tag that the one before it left, and what they came to.
ghost use Rattle.std.specs.Prelude.{◌≤◌, length, drop};
ghost use Rattle.turns.specs.Steps.{Stepped};
ghost use Rattle.tallies.specs.Counts.{no_tally};
ghost use Rattle.rehearse.specs.Counts.{Walked};

use state::Tag;
use std::random::RandomSource;
use tallies::Tally;
use turns::Turn;

// The tag behind the lines.
#[derive(Clone, Copy)]
pub struct Rehearsal {
    pub tag: Tag,
    pub tally: Tally,
}

// A line, with these random bytes of the machine: what it does, and what is printed of it.
fn taken(rt: &impl Print, tag: Tag, number: u64, line: &[u8], d: &[u8]) -> Turn
    ensures { Stepped tag line.now result }
{
    let mut room = [0u8; 4096];
    let a = turns::take_turn(tag, number, line, d, &mut room);
    let _ = rt.write_all(&room[..a.length]);
    a.turn
}

// A line: its command is carried out, or it is skipped and the tag stays as it is.
fn step(rt: &(impl Print + RandomSource), tag: Tag, number: u64, line: &[u8]) -> Turn
    ensures { Stepped tag line.now result }
{
    let mut d = [0u8; 20];
    if rt.fill_bytes(&mut d).is_ok() {
        return taken(rt, tag, number, line, &d);
    }
    taken(rt, tag, number, line, b"")
}

// The lines from an index on, in their order; the line before them has this number.
pub fn steps(
    rt: &(impl Print + RandomSource),
    tag: Tag,
    text: &[u8],
    from: usize,
    number: u64,
) -> Rehearsal
    requires { number ≤ from }
    ensures { Walked (length text.now) number (drop from text.now) tag no_tally result }
{
    let mut t = tag;
    let mut n = tallies::none();
    let mut at = from;
    let mut line = number;
    while at < text.len() {
        let end = lines::find(text, at, b'\n');
        line += 1;
        let w = step(rt, t, line, &text[at..end]);
        n = tallies::counted(n, line, w.went);
        t = w.tag;
        at = end + 1;
    }
    Rehearsal { tag: t, tally: n }
}
