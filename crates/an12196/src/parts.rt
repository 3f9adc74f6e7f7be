// The authentication with key 0.
use crate::mutual;
use crate::tally::Tally;

const KEY: [u8; 16] = [0; 16];

// Part one, and the check of part two.
pub fn first_parts(rt: &impl Print, tally: &mut Tally) {
    let one = authentication::part_one(KEY, mutual::RND_B);
    let got = authentication::check_part_two(KEY, mutual::RND_B, &mutual::PART_TWO);
    tally.compare(rt, "E(K0; RndB)", &one.bytes, &mutual::PART_ONE);
    tally.count(rt, "check of part two", got.a.is_ok());
    tally.compare(rt, "RndA", &got.a.unwrap_or([0; 16]), &mutual::RND_A);
}

// The reply of part two, and the session keys.
pub fn last_part(rt: &impl Print, tally: &mut Tally) {
    let reply = authentication::first_reply(KEY, mutual::TI, mutual::RND_A, [0; 6]);
    let keys = session_keys::session_keys(KEY, mutual::RND_A, mutual::RND_B);
    tally.compare(
        rt,
        "reply of part two",
        &reply.bytes,
        &mutual::PART_TWO_REPLY,
    );
    tally.compare(rt, "SesAuthENCKey", &keys.enc, &mutual::ENC_KEY);
    tally.compare(rt, "SesAuthMACKey", &keys.mac, &mutual::MAC_KEY);
}
