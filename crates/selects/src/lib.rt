// ISOSelectFile (10.9.1).
#![tactic(auto)]

ghost use Rattle.std.specs.Prelude.{◌≡◌};
ghost use Rattle.replies.specs.Answer.{Gives};
ghost use Rattle.selects.specs.Selects.{moved, selected_file, of_id, by_id, by_name, selected};

use buffers::Buffer;
use replies::Done;
use state::{Place, Tag};
use statuses::Status;

// PICC or application: session and file selection end.
#[tactic(auto, unfolding(crate::specs::Selects::moved, state::specs::State::placed))]
fn move_to(tag: Tag, application: bool) -> Done
    ensures { Gives (moved tag application) result }
{
    let place = Place {
        application,
        file: 0,
    };
    let moved = Tag {
        place,
        ..state::ended(tag)
    };
    replies::give(moved, Status::IsoNormal, Buffer::empty(), 0)
}

// A file needs the application, and keeps the session.
#[tactic(auto, unfolding(crate::specs::Selects::selected_file))]
fn select_file(tag: Tag, n: u8) -> Done
    ensures { Gives (selected_file tag n) result }
{
    if tag.place.application {
        let place = Place {
            application: true,
            file: n,
        };
        let tap = state::quiet(tag.tap);
        let selected = Tag { place, tap, ..tag };
        return replies::give(selected, Status::IsoNormal, Buffer::empty(), 0);
    }
    replies::refuse(tag, Status::IsoNotFound)
}

// 3F00, E110, E103 to E105.
#[tactic(auto, unfolding(crate::specs::Selects::of_id))]
fn of_id(tag: Tag, id: u16) -> Done
    ensures { Gives (of_id tag id) result }
{
    match id {
        0x3F00 => move_to(tag, false),
        0xE110 => move_to(tag, true),
        0xE103 => select_file(tag, 1),
        0xE104 => select_file(tag, 2),
        0xE105 => select_file(tag, 3),
        _ => replies::refuse(tag, Status::IsoNotFound),
    }
}

// An id of two bytes, or nothing for the PICC.
#[tactic(auto, unfolding(crate::specs::Selects::by_id))]
fn select_id(tag: Tag, d: &[u8]) -> Done
    ensures { Gives (by_id tag d.now) result }
{
    match d {
        [] => move_to(tag, false),
        [high, low] => of_id(tag, u16::from_be_bytes([*high, *low])),
        _ => replies::refuse(tag, Status::IsoWrongData),
    }
}

// D2760000850100 or D2760000850101.
#[tactic(auto, unfolding(crate::specs::Selects::by_name))]
fn select_name(tag: Tag, d: &[u8]) -> Done
    ensures { Gives (by_name tag d.now) result }
{
    if base::alike(d, &[0xD2, 0x76, 0x00, 0x00, 0x85, 0x01, 0x00]) {
        return move_to(tag, false);
    }
    if base::alike(d, &[0xD2, 0x76, 0x00, 0x00, 0x85, 0x01, 0x01]) {
        return move_to(tag, true);
    }
    replies::refuse(tag, Status::IsoNotFound)
}

// P2 00 or 0C; P1 00, 01, 02 by id, 04 by name.
#[tactic(auto, unfolding(crate::specs::Selects::selected))]
pub fn select(tag: Tag, p1: u8, p2: u8, d: &[u8]) -> Done
    ensures { Gives (selected tag p1 p2 d.now) result }
{
    if p2 != 0 && p2 != 0x0C {
        return replies::refuse(tag, Status::IsoWrongP1P2);
    }
    match p1 {
        0..=2 => select_id(tag, d),
        4 => select_name(tag, d),
        _ => replies::refuse(tag, Status::IsoWrongP1P2),
    }
}
