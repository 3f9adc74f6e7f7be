// ChangeKey and GetKeyVersion (10.6).
#![tactic(auto)]

ghost use Rattle.std.specs.Prelude.{◌≡◌, eqb};
ghost use Rattle.std.specs.Int.Bits.{bit_xor};
ghost use Rattle.base.specs.Decide.{pick};
ghost use Rattle.statuses.specs.Words.{word_or_0};
ghost use Rattle.replies.specs.Answer.{Gives};
ghost use Rattle.keyring.specs.Keyring.{new_key, change_status, with_key, changed_key, key_version};

use buffers::Buffer;
use messaging::Mode;
use replies::Done;
use state::{Secrets, Tag};
use statuses::Status;

// A byte of the new key: as it came for key 0, else summed with the old key's.
fn key_byte(came: u8, old: u8, k: u8) -> u8
    ensures { result ≡ pick (eqb k 0) came (bit_xor came old) }
{
    if k == 0 { came } else { came ^ old }
}

// The new key.
fn new_key(p: &[u8], old: [u8; 16], k: u8) -> [u8; 16]
    ensures { result ≡ new_key p.now old k }
{
    let mut new = [0; 16];
    for i in 0..16 {
        new[i] = key_byte(base::at(p, i), old[i], k);
    }
    new
}

// What refuses it: other lengths 917E, wrong CRC 911E.
#[tactic(auto, unfolding(crate::specs::Keyring::change_status), using(crate::proofs::Changing::rest_whole))]
fn change_status(p: &[u8], k: u8, new: [u8; 16]) -> Result<(), Status>
    ensures { word_or_0 result ≡ change_status p.now k new }
{
    let length = if k == 0 { 17 } else { 21 };
    if p.len() != length {
        return Err(Status::LengthError);
    }
    if k != 0 && !base::alike(&p[17..], &crc::crc_of(&new)) {
        return Err(Status::IntegrityError);
    }
    Ok(())
}

// The secrets with another key k and its version.
#[tactic(auto, unfolding(crate::specs::Keyring::with_key))]
fn with_key(secrets: Secrets, k: u8, new: [u8; 16], version: u8) -> Secrets
    ensures { result ≡ with_key secrets k new version }
{
    let Secrets {
        mut keys,
        mut versions,
    } = secrets;
    let slot = usize::from(k);
    base::put(&new, &mut keys, slot * 16);
    base::put(&[version], &mut versions, slot);
    Secrets { keys, versions }
}

// ChangeKey of key k. Changing key 0 ends the session, and the reply has no MAC.
#[tactic(auto, unfolding(crate::specs::Keyring::changed_key, state::specs::State::keyed))]
pub fn change_key(tag: Tag, k: u8, p: &[u8]) -> Done
    ensures { Gives (changed_key tag k p.now) result }
{
    let new = new_key(p, state::key_of(tag.secrets.keys, k), k);
    if let Err(status) = change_status(p, k, new) {
        return replies::refuse(tag, status);
    }
    let secrets = with_key(tag.secrets, k, new, base::at(p, 16));
    let changed = Tag { secrets, ..tag };
    if k == 0 {
        return replies::give(
            state::ended(changed),
            Status::OperationOk,
            Buffer::empty(),
            0,
        );
    }
    replies::accept(changed, Mode::Full, Buffer::empty())
}

// GetKeyVersion of key k.
#[tactic(auto, unfolding(crate::specs::Keyring::key_version), using(replies::proofs::Given::buffer_given))]
pub fn key_version(tag: Tag, k: u8, mode: Mode) -> Done
    ensures { Gives (key_version tag k mode) result }
{
    let versions = tag.secrets.versions;
    let version = base::at(&versions, usize::from(k));
    replies::accept(tag, mode, Buffer::of(&[version]))
}
