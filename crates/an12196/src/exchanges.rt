// ChangeFileSettings and ChangeKey in Full: the commands opened, the replies closed.
use crate::tally::Tally;
use crate::{file_settings, key_changes, mutual};
use messaging::{Mode, Session};
use opening::NotOpened;

// The session of the ChangeFileSettings command.
pub fn session(counter: u16) -> Session {
    Session {
        enc: mutual::ENC_KEY,
        mac: mutual::MAC_KEY,
        ti: mutual::TI,
        counter,
    }
}

// The session of the ChangeKey commands.
pub fn other_session(counter: u16) -> Session {
    Session {
        enc: key_changes::OTHER_ENC_KEY,
        mac: key_changes::OTHER_MAC_KEY,
        ti: key_changes::OTHER_TI,
        counter,
    }
}

// A command in Full whose header is one byte opens to its plain data, and with one bit changed its MAC is wrong.
pub fn command<const N: usize>(
    rt: &impl Print,
    tally: &mut Tally,
    name: &str,
    s: Session,
    cmd: u8,
    x: &[u8; N],
    plain: &[u8],
) {
    let mut room = [0; 256];
    let opened = opening::open(s, Mode::Full, cmd, x, 1, true, &mut room);
    let right = match opened.data {
        Ok(n) => room.get(..n) == Some(plain),
        Err(_) => false,
    };
    tally.count(rt, name, right);
    let mut changed = *x;
    if let Some(byte) = changed.get_mut(1) {
        *byte ^= 1;
    }
    let refused = opening::open(s, Mode::Full, cmd, &changed, 1, true, &mut room);
    tally.count(rt, name, refused.data == Err(NotOpened::WrongMac));
}

// A reply with no data in Full is its MAC alone.
pub fn reply(rt: &impl Print, tally: &mut Tally, name: &str, s: Session, theirs: &[u8]) {
    let mut room = [0; 256];
    let length = match closing::close(s, Mode::Full, 0, &mut room, 0) {
        Ok(closed) => closed.length,
        Err(_) => return tally.count(rt, name, false),
    };
    match room.get(..length) {
        Some(ours) => tally.compare(rt, name, ours, theirs),
        None => tally.count(rt, name, false),
    }
}

pub fn change_file_settings(rt: &impl Print, tally: &mut Tally) {
    let vector = messaging::command_iv(session(1));
    tally.compare(
        rt,
        "IV of the command",
        &vector.bytes,
        &file_settings::SETTINGS_IV,
    );
    command(
        rt,
        tally,
        "ChangeFileSettings",
        session(1),
        0x5F,
        &file_settings::SETTINGS_DATA,
        &file_settings::SETTINGS,
    );
    reply(
        rt,
        tally,
        "reply of ChangeFileSettings",
        session(2),
        &file_settings::SETTINGS_REPLY,
    );
}

pub fn change_key_two(rt: &impl Print, tally: &mut Tally) {
    let crc = crc::crc_of(&key_changes::KEY_TWO);
    tally.compare(rt, "CRC", &crc, &key_changes::KEY_TWO_CRC);
    command(
        rt,
        tally,
        "ChangeKey of key 2",
        other_session(2),
        0xC4,
        &key_changes::KEY_TWO_DATA,
        &key_changes::KEY_TWO_PLAIN,
    );
    reply(
        rt,
        tally,
        "reply of ChangeKey",
        other_session(3),
        &key_changes::KEY_TWO_REPLY,
    );
}

pub fn change_key_zero(rt: &impl Print, tally: &mut Tally) {
    command(
        rt,
        tally,
        "ChangeKey of key 0",
        other_session(3),
        0xC4,
        &key_changes::KEY_ZERO_DATA,
        &key_changes::KEY_ZERO_PLAIN,
    );
}
