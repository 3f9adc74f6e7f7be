// Authentication (9.1.5, 9.1.6, 10.4): part one of 71 and of 77.
#![tactic(auto)]

ghost use Rattle.std.specs.Prelude.{◌≡◌, ◌≤◌, length, take};
ghost use Rattle.statuses.specs.Words.{word_or_0};
ghost use Rattle.replies.specs.Answer.{Gives};
ghost use Rattle.auth.specs.Parts.{values_status, first_status, next_status, begun, cap_of, part_one_first, part_one_next};

use replies::Done;
use state::{Pending, Tag};
use statuses::Status;

// What refuses part one of 71 behind its lengths.
#[tactic(auto, unfolding(crate::specs::Parts::values_status))]
fn first_values(x: &[u8], application: bool) -> Result<(), Status>
    ensures { word_or_0 result ≡ values_status x.now application }
{
    order::key_status(base::at(x, 0))?;
    if base::at(x, 2) / 2 % 2 == 1 {
        return Err(Status::PermissionDenied);
    }
    if !application {
        return Err(Status::NoSuchKey);
    }
    Ok(())
}

// What refuses part one of 71.
#[tactic(auto, unfolding(crate::specs::Parts::first_status))]
fn first_status(x: &[u8], application: bool) -> Result<(), Status>
    ensures { word_or_0 result ≡ first_status x.now application }
{
    if x.len() < 2 {
        return Err(Status::LengthError);
    }
    let cap = base::at(x, 1);
    if 6 < cap {
        return Err(Status::ParameterError);
    }
    if x.len() != 2 + usize::from(cap) {
        return Err(Status::LengthError);
    }
    first_values(x, application)
}

// What refuses part one of 77.
#[tactic(auto, unfolding(crate::specs::Parts::next_status))]
fn next_status(x: &[u8], live: bool) -> Result<(), Status>
    ensures { word_or_0 result ≡ next_status x.now live }
{
    if x.len() != 1 {
        return Err(Status::LengthError);
    }
    if !live {
        return Err(Status::PermissionDenied);
    }
    order::key_status(base::at(x, 0))
}

// PCDcap2 of a part one of 71, at most six bytes, padded with zeros to six.
#[tactic(auto, unfolding(crate::specs::Parts::cap_of))]
fn cap_of(x: &[u8]) -> [u8; 6]
    requires { (2 ≤ length x.now) × (length x.now ≤ 8) }
    ensures { result ≡ cap_of x.now }
{
    let mut cap = [0; 6];
    cap[..x.len() - 2].copy_from_slice(&x[2..]);
    cap
}

// RndB: bytes 0 to 15 of the random ones.
fn rnd_b(random: [u8; 20]) -> [u8; 16]
    ensures { result ≡ take 16 random }
{
    let mut b = [0; 16];
    b.copy_from_slice(&random[..16]);
    b
}

// Part one accepted: E(Kx; RndB), 91AF; the old session ends.
fn begin(tag: Tag, p: Pending) -> Done
    ensures { Gives (begun tag p) result }
{
    let e = authentication::part_one(state::key_of(tag.secrets.keys, p.key), p.rnd_b);
    let begun = state::talking(tag, state::no_live(), p);
    replies::give_text(begun, Status::AdditionalFrame, &e.bytes, e.cost)
}

// Part one of 71.
#[tactic(auto, unfolding(crate::specs::Parts::part_one_first, crate::specs::Parts::pending_first))]
pub fn first(tag: Tag, x: &[u8], random: [u8; 20]) -> Done
    ensures { Gives (part_one_first tag x.now random) result }
{
    if let Err(status) = first_status(x, tag.place.application) {
        return replies::refuse(tag, status);
    }
    let rnd_b = rnd_b(random);
    let cap = cap_of(x);
    let pending = Pending {
        on: true,
        first: true,
        key: base::at(x, 0),
        rnd_b,
        cap,
        ti: [0; 4],
        counter: 0,
    };
    begin(tag, pending)
}

// Part one of 77: TI and CmdCtr are kept.
#[tactic(auto, unfolding(crate::specs::Parts::part_one_next, crate::specs::Parts::pending_next))]
pub fn next(tag: Tag, x: &[u8], random: [u8; 20]) -> Done
    ensures { Gives (part_one_next tag x.now random) result }
{
    if let Err(status) = next_status(x, tag.live.on) {
        return replies::refuse(tag, status);
    }
    let rnd_b = rnd_b(random);
    let ti = tag.live.ti;
    let pending = Pending {
        on: true,
        first: false,
        key: base::at(x, 0),
        rnd_b,
        cap: [0; 6],
        ti,
        counter: tag.live.counter,
    };
    begin(tag, pending)
}
