// One exchange: its lines read, the command played, our answer compared with the logged reply.
ghost use Rattle.std.specs.Prelude.{true, ◌≡◌, ◌≤◌, is_none, IfSome, Ok};
ghost use Rattle.buffers.specs.Text.{text_of};
ghost use Rattle.tag.specs.Call.{refusal_number};
ghost use Rattle.talks.specs.Log.{field_at};
ghost use Rattle.talks.specs.Verdict.{another, differs, unread, broken, unplayed};

use crate::{Played, log, report};
use buffers::Buffer;
use state::Tag;
use tag::Outcome;

// A reply of ours, n bytes at the front of the room: whether it is another than the logged one. Then both are printed.
fn is_another(rt: &impl Print, number: u64, logged: &[u8], room: &[u8], n: usize) -> bool
    ensures { result ≡ another logged.now room.now n }
{
    if room.len() < n {
        report::no_reply(rt, number, logged);
        return true;
    }
    if base::alike(logged, &room[..n]) {
        return false;
    }
    report::another(rt, number, logged, &room[..n]);
    true
}

// A refusal is another answer than any reply.
fn refused(rt: &impl Print, number: u64, logged: &[u8], refusal: u64) -> bool
    ensures { result ≡ true }
{
    report::refusal(rt, number, logged, refusal);
    true
}

// The number of a refusal, and 0 for a reply.
fn refusal_of(outcome: Outcome) -> u64
    ensures { result ≡ refusal_number outcome }
{
    match outcome {
        Outcome::Replied => 0,
        Outcome::SmallRoom => 1,
        Outcome::WrongRandom => 2,
        Outcome::Unsound => 3,
    }
}

fn judged(
    rt: &impl Print,
    number: u64,
    logged: &[u8],
    outcome: Outcome,
    room: &[u8],
    n: usize,
) -> bool
    ensures { result ≡ differs logged.now outcome room.now n }
{
    let refusal = refusal_of(outcome);
    if refusal == 0 {
        return is_another(rt, number, logged, room, n);
    }
    refused(rt, number, logged, refusal)
}

fn play(
    rt: &impl Print,
    t: Tag,
    number: u64,
    command: &[u8],
    logged: &[u8],
    random: &[u8],
) -> Played {
    let mut room = [0u8; 300];
    let d = tag::call(t, command, random, &mut room);
    let differs = judged(rt, number, logged, d.outcome, &room, d.length);
    Played {
        differs,
        tag: d.tag,
    }
}

#[tactic(auto, unfolding(crate::specs::Verdict::unplayed))]
fn unplayed(t: Tag) -> Played
    ensures { result ≡ unplayed t }
{
    Played {
        differs: true,
        tag: t,
    }
}

// The bytes of the line that begins at a place; one that can't be read is named.
#[tactic(auto, unfolding(crate::specs::Verdict::unread))]
fn line_at(rt: &impl Print, text: &[u8], at: usize, line: u64) -> Option<Buffer<300>>
    ensures named { is_none result ≡ unread (field_at text.now at) }
    ensures bytes { IfSome result (λ field. field_at text.now at ≡ Ok (text_of field)) }
{
    match log::read(text, at) {
        Ok(field) => Some(field),
        Err(why) => {
            report::faulty(rt, line, why);
            None
        }
    }
}

// The exchange that begins at a place. One with a line that can't be read differs and leaves the tag; each such line is named.
#[tactic(auto, unfolding(crate::specs::Verdict::broken))]
pub fn run(rt: &impl Print, t: Tag, text: &[u8], at: usize, number: u64) -> Played
    requires { (1 ≤ number) × (number ≤ 524288) }
    ensures { broken text.now at ≡ true → result ≡ unplayed t }
{
    let second = log::next(text, at);
    let third = log::next(text, second);
    // the UID is line 1, so the reply of exchange n is line 3 n
    let middle = number * 3;
    let command = line_at(rt, text, at, middle - 1);
    let reply = line_at(rt, text, second, middle);
    let random = line_at(rt, text, third, middle + 1);
    let Some(asked) = command else {
        return unplayed(t);
    };
    let Some(logged) = reply else {
        return unplayed(t);
    };
    let Some(drawn) = random else {
        return unplayed(t);
    };
    play(
        rt,
        t,
        number,
        asked.as_slice(),
        logged.as_slice(),
        drawn.as_slice(),
    )
}
