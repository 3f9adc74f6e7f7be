// The parts of a state: files, settings, keys, and what ends.
ghost use Rattle.std.specs.Prelude.{◌≡◌, leb};
ghost use Rattle.base.specs.Decide.{pick};
ghost use Rattle.base.specs.Bytes.{byte_at};
ghost use Rattle.state.specs.State.{start_of, size_of, slot_of, string_at, reading_in, key_in, session_of, no_live, no_pending, quieted, talking, ended_of};

use crate::{Files, Live, Pending, Tag, Tapping};
use messaging::Session;
use spans::Reading;

// Where a file's bytes begin; behind the last for any other number.
#[tactic(auto, unfolding(crate::specs::State::start_of))]
pub fn file_start(n: u8) -> usize
    ensures { result ≡ start_of n }
{
    match n {
        1 => 0,
        2 => 32,
        3 => 288,
        _ => 416,
    }
}

// How many bytes a file has; none for any other number.
#[tactic(auto, unfolding(crate::specs::State::size_of))]
pub fn file_size(n: u8) -> usize
    ensures { result ≡ size_of n }
{
    match n {
        1 => 32,
        2 => 256,
        3 => 128,
        _ => 0,
    }
}

// A file's place among the settings; behind the last for any other number.
#[tactic(auto, unfolding(crate::specs::State::slot_of))]
pub fn slot_of(n: u8) -> usize
    ensures { result ≡ slot_of n }
{
    match n {
        1 => 0,
        2 => 1,
        3 => 2,
        _ => 3,
    }
}

// How many bytes the settings string in a slot has: what its length says, at most 27; none behind the last slot.
fn string_len(lens: [u8; 3], i: usize) -> usize
    ensures { result ≡ pick (leb (byte_at lens i) 27) (byte_at lens i) 27 }
{
    usize::from(base::at(&lens, i)).min(27)
}

// The settings string of a file.
#[tactic(auto, using(crate::proofs::Strings::slot_small, crate::proofs::Strings::cut_small, crate::proofs::Strings::cut_fits))]
pub fn string_in(rules: &[u8; 81], lens: [u8; 3], n: u8) -> &[u8]
    ensures { result.now ≡ string_at rules.now lens n }
{
    let i = slot_of(n);
    let at = i * 27;
    &rules[at..at + string_len(lens, i)]
}

// What a file's settings mean.
#[tactic(auto, unfolding(crate::specs::State::reading_in, crate::specs::State::rules_of))]
pub fn reading_in(f: Files, n: u8) -> Reading
    ensures { result ≡ reading_in f n }
{
    spans::meaning(string_in(&f.rules, f.lens, n))
}

// Key k, and zeros for a number over 4.
#[tactic(auto, unfolding(crate::specs::State::key_in))]
pub fn key_of(keys: [u8; 80], k: u8) -> [u8; 16]
    ensures { result ≡ key_in keys k }
{
    let mut r = [0; 16];
    if k <= 4 {
        let at = usize::from(k) * 16;
        r.copy_from_slice(&keys[at..at + 16]);
    }
    r
}

// What protects the messages of a session.
#[tactic(auto, unfolding(crate::specs::State::session_of))]
pub fn session_of(l: Live) -> Session
    ensures { result ≡ session_of l }
{
    let Live {
        enc,
        mac,
        ti,
        counter,
        ..
    } = l;
    Session {
        enc,
        mac,
        ti,
        counter,
    }
}

// No session.
#[tactic(auto, unfolding(crate::specs::State::no_live))]
pub fn no_live() -> Live
    ensures { result ≡ no_live }
{
    Live {
        on: false,
        key: 0,
        enc: [0; 16],
        mac: [0; 16],
        ti: [0; 4],
        counter: 0,
    }
}

// No part two pending.
#[tactic(auto, unfolding(crate::specs::State::no_pending))]
pub fn no_pending() -> Pending
    ensures { result ≡ no_pending }
{
    Pending {
        on: false,
        first: false,
        key: 0,
        rnd_b: [0; 16],
        cap: [0; 6],
        ti: [0; 4],
        counter: 0,
    }
}

// No tap; the counter stays.
#[tactic(auto, unfolding(crate::specs::State::quieted))]
pub fn quiet(t: Tapping) -> Tapping
    ensures { result ≡ quieted t }
{
    Tapping {
        on: false,
        iso: false,
        counter: t.counter,
        padding: [0; 12],
    }
}

// The tag with another session and pending part, and no tap.
#[tactic(auto, unfolding(crate::specs::State::talking))]
pub fn talking(tag: Tag, l: Live, p: Pending) -> Tag
    ensures { result ≡ talking tag l p }
{
    Tag {
        live: l,
        pending: p,
        tap: quiet(tag.tap),
        ..tag
    }
}

// Session, pending part two and tap have ended.
#[tactic(auto, unfolding(crate::specs::State::ended_of))]
pub fn ended(tag: Tag) -> Tag
    ensures { result ≡ ended_of tag }
{
    talking(tag, no_live(), no_pending())
}
