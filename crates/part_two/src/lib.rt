// Authentication (9.1.5, 9.1.6, 10.4): part two of 71 and of 77.
#![tactic(auto)]

ghost use Rattle.std.specs.Prelude.{◌≡◌, drop};
ghost use Rattle.replies.specs.Answer.{Gives};
ghost use Rattle.part_two.specs.PartTwo.{session_from, entered_first, entered_next, entered, by_proof, part_two_answer};
ghost use Rattle.session_keys.specs.Keys.{session_keys_cost};

use authentication::Wrong;
use replies::Done;
use state::{Live, Pending, Tag};
use statuses::Status;

// TI: bytes 16 to 19.
fn ti_of(random: [u8; 20]) -> [u8; 4]
    ensures { result ≡ drop 16 random }
{
    let mut ti = [0; 4];
    ti.copy_from_slice(&random[16..]);
    ti
}

// A session, and how many blocks were computed for its keys.
#[derive(Clone, Copy)]
struct Started {
    live: Live,
    cost: usize,
}

// The session that part two opens.
#[tactic(auto, unfolding(crate::specs::PartTwo::session_from, session_keys::specs::Keys::session_keys))]
fn session(p: Pending, kx: [u8; 16], a: [u8; 16], ti: [u8; 4], counter: u16) -> Started
    ensures live { result.live ≡ session_from p kx a ti counter }
    ensures cost { result.cost ≡ session_keys_cost }
{
    let keys = session_keys::session_keys(kx, a, p.rnd_b);
    let enc = keys.enc;
    let mac = keys.mac;
    Started {
        live: Live {
            on: true,
            key: p.key,
            enc,
            mac,
            ti,
            counter,
        },
        cost: keys.cost,
    }
}

// Part two of 71 accepted: TI, RndA', PDcap2 and PCDcap2; CmdCtr is 0.
fn enter_first(tag: Tag, kx: [u8; 16], a: [u8; 16], random: [u8; 20]) -> Done
    ensures { Gives (entered_first tag kx a random) result }
{
    let ti = ti_of(random);
    let e = authentication::first_reply(kx, ti, a, tag.pending.cap);
    let s = session(tag.pending, kx, a, ti, 0);
    let next = state::talking(tag, s.live, state::no_pending());
    replies::give_text(next, Status::OperationOk, &e.bytes, s.cost + e.cost)
}

// Part two of 77 accepted: RndA'; CmdCtr is kept.
fn enter_next(tag: Tag, kx: [u8; 16], a: [u8; 16]) -> Done
    ensures { Gives (entered_next tag kx a) result }
{
    let p = tag.pending;
    let e = authentication::next_reply(kx, a);
    let s = session(p, kx, a, p.ti, p.counter);
    let next = state::talking(tag, s.live, state::no_pending());
    replies::give_text(next, Status::OperationOk, &e.bytes, s.cost + e.cost)
}

// Part two with the right RndB'.
#[tactic(auto, unfolding(crate::specs::PartTwo::entered))]
fn enter(tag: Tag, kx: [u8; 16], a: [u8; 16], random: [u8; 20]) -> Done
    ensures { Gives (entered tag kx a random) result }
{
    if tag.pending.first {
        return enter_first(tag, kx, a, random);
    }
    enter_next(tag, kx, a)
}

// Part two behind its check, which gave RndA or why not.
#[tactic(auto, unfolding(authentication::specs::Authentication::proof_status))]
fn by_proof(proof: Result<[u8; 16], Wrong>, tag: Tag, kx: [u8; 16], random: [u8; 20]) -> Done
    ensures { Gives (by_proof tag kx random proof) result }
{
    match proof {
        Ok(a) => enter(tag, kx, a, random),
        Err(Wrong::NotThirtyTwo) => replies::refuse(tag, Status::LengthError),
        Err(Wrong::WrongRndB) => replies::refuse(tag, Status::AuthenticationError),
    }
}

// Part two.
pub fn second(tag: Tag, x: &[u8], random: [u8; 20]) -> Done
    ensures { Gives (part_two_answer tag x.now random) result }
{
    let kx = state::key_of(tag.secrets.keys, tag.pending.key);
    let checked = authentication::check_part_two(kx, tag.pending.rnd_b, x);
    let done = by_proof(checked.a, tag, kx, random);
    Done {
        cost: checked.cost + done.cost,
        ..done
    }
}
