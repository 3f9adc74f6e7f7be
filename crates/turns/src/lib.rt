// A line of a plan: what it does to the tag, and what is printed of it.
#![tactic(auto)]

ghost use Rattle.std.specs.Prelude.{◌≡◌, take};
ghost use Rattle.turns.specs.Steps.{went_by, stays, meaning_in, expected_in};
ghost use Rattle.turns.specs.Acts.{act_of, why_with, played_as, silent, drawn_by, acted_by};
ghost use Rattle.turns.specs.Lines.{told_of, line_acted, line_told};
ghost use Rattle.forms.specs.Rooms.{Lays};

use access::Grant;
use buffers::Buffer;
use plans::{Line, Meaning, Reason};
use state::Tag;
use tallies::Went;
use telling::Why;

// The tag behind a line.
#[derive(Clone, Copy)]
pub struct Turn {
    pub tag: Tag,
    pub went: Went,
}

// A turn, the reply, and what is noted of it.
#[derive(Clone, Copy)]
pub struct Acted {
    pub turn: Turn,
    pub reply: Buffer<258>,
    pub why: Why,
}

// The turn, and how much of the room its text takes.
#[derive(Clone, Copy)]
pub struct Taken {
    pub turn: Turn,
    pub length: usize,
}

// What is said of a command that was played, by its reply, what was expected of it and the AES blocks that it took.
#[tactic(auto, unfolding(crate::specs::Steps::went_by))]
fn told(reply: &[u8], expected: &[u8], blocks: u64) -> Went
    ensures { result ≡ went_by reply.now expected.now blocks }
{
    Went {
        played: true,
        refused: verdict::refuses(verdict::status_of(reply)),
        skipped: false,
        undrawn: false,
        expecting: 0 < expected.len(),
        unmet: verdict::differs(expected, reply),
        blocks,
    }
}

// What a call notes, and the key of its session.
#[tactic(auto, unfolding(crate::specs::Acts::why_with))]
fn noted(n: Option<Grant>, key: u8) -> Why
    ensures { result ≡ why_with n key }
{
    let m = access::marked(n);
    Why {
        how: m.how,
        right: m.right,
        key,
    }
}

// A command is played.
fn play(tag: Tag, command: &[u8], random: &[u8], expected: &[u8]) -> Acted
    ensures { act_of result ≡ played_as tag command.now random.now expected.now }
{
    let mut room = [0u8; 258];
    let d = tag::call(tag, command, random, &mut room);
    let went = told(&room[..d.length], expected, d.cost as u64);
    let why = noted(d.noted, tag.live.key);
    Acted {
        turn: Turn { tag: d.tag, went },
        reply: Buffer {
            bytes: room,
            length: d.length,
        },
        why,
    }
}

// Plays the first n bytes of a command.
fn front(tag: Tag, n: usize, c: &[u8], x: &[u8], e: &[u8]) -> Acted
    ensures { act_of result ≡ played_as tag (take n c.now) x.now e.now }
{
    play(tag, c.get(..n).unwrap_or(c), x, e)
}

// A line that does nothing: it is blank, or skipped, or skipped since the machine gave no random bytes.
#[tactic(auto, unfolding(crate::specs::Acts::silent, crate::specs::Steps::stays))]
fn still(tag: Tag, skipped: bool, undrawn: bool) -> Acted
    ensures { act_of result ≡ silent (stays tag skipped undrawn) }
{
    let went = Went {
        played: false,
        refused: false,
        skipped,
        undrawn,
        expecting: false,
        unmet: false,
        blocks: 0,
    };
    Acted {
        turn: Turn { tag, went },
        reply: Buffer::empty(),
        why: Why {
            how: 0,
            right: 0,
            key: 0,
        },
    }
}

// A command without random bytes of its own takes the machine's, where they are 20; else the tag is left as it is.
#[tactic(auto, unfolding(crate::specs::Acts::drawn_by))]
fn drawn(tag: Tag, n: usize, c: &[u8], d: &[u8], e: &[u8]) -> Acted
    ensures { act_of result ≡ drawn_by n tag c.now e.now d.now }
{
    if d.len() == 20 {
        front(tag, n, c, d, e)
    } else {
        still(tag, true, true)
    }
}

// What a line asks for is done: the command is the first bytes of c, x are the random bytes that it brings, e is what it expects, and d
// are the machine's random bytes.
fn carry_out(
    tag: Tag,
    meaning: Result<Meaning, Reason>,
    c: &[u8],
    x: &[u8],
    e: &[u8],
    d: &[u8],
) -> Acted
    ensures { act_of result ≡ acted_by meaning tag c.now x.now e.now d.now }
{
    match meaning {
        Err(_) => still(tag, true, false),
        Ok(asked) => match asked {
            Meaning::Blank => still(tag, false, false),
            Meaning::Drawn(n) => drawn(tag, n, c, d, e),
            Meaning::Given(n) => front(tag, n, c, x, e),
        },
    }
}

// What a line asks for is done and told: its command is the first bytes of c, x are the random bytes that it brings, e is what it
// expects, and d are the machine's random bytes.
fn turned(
    tag: Tag,
    number: u64,
    meaning: Result<Meaning, Reason>,
    c: &[u8],
    x: &[u8],
    e: &[u8],
    d: &[u8],
    room: &mut [u8],
) -> Taken
    ensures turn { result.turn ≡ (acted_by meaning tag c.now x.now e.now d.now).turn }
    ensures text { Lays (told_of number meaning c.now e.now
        (acted_by meaning tag c.now x.now e.now d.now)) 0 room.old result.length room.new }
{
    let a = carry_out(tag, meaning, c, x, e, d);
    let turn = a.turn;
    let went = turn.went;
    let length = telling::line_text(
        number,
        meaning,
        c,
        a.reply.as_slice(),
        a.why,
        went.blocks,
        e,
        went.undrawn,
        went.unmet,
        room,
    );
    Taken { turn, length }
}

// What a line that was read asks for, and how many bytes it expects.
fn asked(line: Result<Line, Reason>) -> Result<Meaning, Reason>
    ensures { result ≡ meaning_in line }
{
    let line = line?;
    Ok(line.meaning)
}

fn awaited(line: Result<Line, Reason>) -> usize
    ensures { result ≡ expected_in line }
{
    match line {
        Ok(line) => line.expected,
        Err(_) => 0,
    }
}

// The line with this number, by the machine's random bytes: 20, or any other number of them where it gives none.
pub fn take_turn(tag: Tag, number: u64, line: &[u8], d: &[u8], room: &mut [u8]) -> Taken
    ensures turn { result.turn ≡ (line_acted tag line.now d.now).turn }
    ensures text { Lays (line_told number tag line.now d.now) 0 room.old result.length room.new }
{
    let mut c = [0u8; 512];
    let mut x = [0u8; 20];
    let mut w = [0u8; 258];
    let read = plans::line_meaning(line, &mut c, &mut x, &mut w);
    let e = w.get(..awaited(read)).unwrap_or(&w);
    turned(tag, number, asked(read), &c, &x, e, d, room)
}
