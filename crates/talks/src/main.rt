// Plays a log of standard input from a fresh tag: the UID on line one, then command, reply and random bytes, a line each,
// in capital hexadecimal. Prints a line for each exchange whose reply is another, and last the totals. A line that can't be
// read is named; its exchange is not played, and counts as differing.
#![tactic(auto)]

mod exchange;
mod log;
mod report;

ghost use Rattle.std.specs.Prelude.{◌≡◌, ◌≤◌, length};
ghost use Rattle.talks.specs.Log.{unread_by};

use lines::DecodeError;
use state::Tag;

// Why a line can't be read.
#[derive(Clone, Copy, Debug, PartialEq, Eq)]
pub enum Unread {
    NotCapitalHex,
    TooLong,
    Missing,
}

impl From<DecodeError> for Unread {
    ghost from_gives = { λ e why. why ≡ unread_by e };

    fn from(e: DecodeError) -> Unread {
        match e {
            DecodeError::NotHex => Unread::NotCapitalHex,
            DecodeError::RoomTooSmall => Unread::TooLong,
        }
    }
}

// Whether an exchange differs, and the tag after it.
#[derive(Clone, Copy)]
pub struct Played {
    pub differs: bool,
    pub tag: Tag,
}

// Every exchange of a log, from a tag on.
fn play_all(rt: &impl Print, text: &[u8], fresh: Tag)
    requires { length text.now ≤ 524288 }
{
    let last = log::last(text);
    let mut at = log::next(text, 0);
    let mut tag = fresh;
    let mut number: u64 = 0;
    let mut differ: u64 = 0;
    while at < last {
        number += 1;
        let played = exchange::run(rt, tag, text, at, number);
        tag = played.tag;
        differ += u64::from(played.differs);
        at = log::after(text, at);
    }
    report::totals(rt, number, differ);
}

// The UID, and a fresh tag of it.
fn begin(rt: &impl Print, text: &[u8])
    requires { length text.now ≤ 524288 }
{
    match log::read(text, 0) {
        Ok(uid) => {
            match tag::fresh(uid.as_slice()) {
                Ok(fresh) => play_all(rt, text, fresh),
                Err(_) => report::no_uid(rt),
            }
        }
        Err(why) => {
            report::faulty(rt, 1, why);
            report::none_played(rt);
        }
    }
}

// A log of at most 524288 bytes.
fn short_enough(rt: &impl Print, text: &[u8]) {
    if 524288 < text.len() {
        report::too_long(rt);
        return;
    }
    begin(rt, text);
}

// What is read fits into the room.
fn read_into(rt: &(impl Input + Print), room: &mut [u8]) {
    let mut input = rt.reader();
    let n = reading::read_full(&mut input, room);
    if n <= room.len() {
        short_enough(rt, &room[..n]);
    }
}

fn main(rt: HostRuntime) {
    let mut text = [0u8; 524289];
    read_into(&rt, &mut text);
}
