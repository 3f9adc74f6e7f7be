// Values that are wrong on purpose.
use crate::exchanges::{command, other_session, reply, session};
use crate::tally::Tally;
use crate::{file_settings, key_changes, mutual};

// Another value, a byte less, and nothing.
pub fn values(rt: &impl Print, tally: &mut Tally) {
    let key = mutual::ENC_KEY;
    tally.compare(rt, "wrong on purpose: another key", &key, &mutual::MAC_KEY);
    tally.compare(rt, "wrong on purpose: a byte less", b"CMAC", b"CMA");
    tally.compare(rt, "wrong on purpose: no bytes", &key, &[]);
}

// Statuses other than the one expected, and a MAC of another reply.
pub fn statuses(rt: &impl Print, tally: &mut Tally) {
    let got = authentication::check_part_two([0; 16], mutual::RND_A, &mutual::PART_TWO);
    tally.count(
        rt,
        "wrong on purpose: part two of another RndB",
        got.a.is_ok(),
    );
    reply(
        rt,
        tally,
        "wrong on purpose: reply at another CmdCtr",
        session(1),
        &file_settings::SETTINGS_REPLY,
    );
}

// A command whose MAC is of another CmdCtr, one with other plain data, and one cut short, which has no right MAC either.
pub fn commands(rt: &impl Print, tally: &mut Tally) {
    command(
        rt,
        tally,
        "wrong on purpose: command at another CmdCtr",
        other_session(3),
        0xC4,
        &key_changes::KEY_TWO_DATA,
        &key_changes::KEY_TWO_PLAIN,
    );
    command(
        rt,
        tally,
        "wrong on purpose: other plain data",
        other_session(2),
        0xC4,
        &key_changes::KEY_TWO_DATA,
        &key_changes::KEY_ZERO_PLAIN,
    );
    command(
        rt,
        tally,
        "wrong on purpose: a command cut short",
        session(1),
        0x5F,
        &file_settings::SETTINGS_REPLY,
        &file_settings::SETTINGS,
    );
}
