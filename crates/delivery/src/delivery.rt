// A fresh tag: the delivery contents and rights, small constant tables copied into it.
ghost use Rattle.std.specs.Prelude.{◌≡◌};
ghost use Rattle.delivery.specs.Fresh.{blank, delivered_files, Births};

use crate::WrongUid;
use state::{Files, Place, Secrets, Tag, Tapping};

// File 1 as delivered.
const CONTAINER: [u8; 23] = [
    0x00, 0x17, 0x20, 0x01, 0x00, 0x00, 0xFF, 0x04, 0x06, 0xE1, 0x04, 0x01, 0x00, 0x00, 0x00, 0x05,
    0x06, 0xE1, 0x05, 0x00, 0x80, 0x82, 0x83,
];
// FileOption and rights of each file: Plain E,0,0,0; Plain E,E,E,0; Full 2,3,3,0.
const FIRST: [u8; 3] = [0x00, 0x00, 0xE0];

const SECOND: [u8; 3] = [0x00, 0xE0, 0xEE];

const THIRD: [u8; 3] = [0x03, 0x30, 0x23];

// The state with every byte and number 0: it is beside a refusal where there is no tag. It is not sound.
#[tactic(auto, unfolding(crate::specs::Fresh::blank))]
pub fn blank() -> Tag
    ensures { result ≡ blank }
{
    Tag {
        uid: [0; 7],
        files: Files {
            bytes: [0; 416],
            rules: [0; 81],
            lens: [0; 3],
        },
        secrets: Secrets {
            keys: [0; 80],
            versions: [0; 5],
        },
        live: state::no_live(),
        pending: state::no_pending(),
        place: Place {
            application: false,
            file: 0,
        },
        tap: Tapping {
            on: false,
            iso: false,
            counter: 0,
            padding: [0; 12],
        },
    }
}

// The files as delivered.
fn delivered() -> Files
    ensures { result ≡ delivered_files }
{
    let mut bytes = [0; 416];
    bytes[..23].copy_from_slice(&CONTAINER);
    let mut rules = [0; 81];
    rules[..3].copy_from_slice(&FIRST);
    rules[27..30].copy_from_slice(&SECOND);
    rules[54..57].copy_from_slice(&THIRD);
    Files {
        bytes,
        rules,
        lens: [3, 3, 3],
    }
}

// A fresh tag with a UID, or refusal 4 with the state of zeros beside it.
#[tactic(auto, unfolding(crate::specs::Fresh::born, crate::specs::Fresh::right_uid, crate::specs::Fresh::made_number, crate::specs::Fresh::fresh_tag))]
pub fn fresh(uid: &[u8]) -> Result<Tag, WrongUid>
    ensures { Births uid.now result }
{
    if uid.len() != 7 || uid[0] != 4 {
        return Err(WrongUid { beside: blank() });
    }
    let mut own = [0; 7];
    own.copy_from_slice(uid);
    Ok(Tag {
        uid: own,
        files: delivered(),
        secrets: Secrets {
            keys: [0; 80],
            versions: [0; 5],
        },
        live: state::no_live(),
        pending: state::no_pending(),
        place: Place {
            application: false,
            file: 0,
        },
        tap: Tapping {
            on: false,
            iso: false,
            counter: 0,
            padding: [0; 12],
        },
    })
}
