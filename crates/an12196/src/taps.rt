// The mirrors of two taps.
use crate::tally::Tally;
use crate::tap_values;
use sdm::Tap;

const KEY: [u8; 16] = [0; 16];

// A tap with UID and counter in PICCData.
fn tap(uid: [u8; 7], counter: u32) -> Tap {
    Tap {
        uid,
        counter,
        names: true,
        counts: true,
    }
}

// The twelve bytes that a tap keeps, which start with a mirror's padding.
fn kept(padding: [u8; 5]) -> [u8; 12] {
    let mut r = [0; 12];
    r[..5].copy_from_slice(&padding);
    r
}

pub fn first_tap(rt: &impl Print, tally: &mut Tally) {
    let tap = tap(tap_values::UID_ONE, 61);
    let picc = sdm::picc_data(KEY, tap, kept(tap_values::PADDING_ONE));
    let key = sdm::tap_mac_key(KEY, tap);
    let mac = sdm::tap_mac(key.bytes, &[]);
    tally.compare(
        rt,
        "PICCData of the first tap",
        &picc.bytes,
        &tap_values::PICC_ONE,
    );
    tally.compare(
        rt,
        "SesSDMFileReadMACKey",
        &key.bytes,
        &tap_values::MAC_KEY_ONE,
    );
    tally.compare(
        rt,
        "SDMMAC of the first tap",
        &mac.bytes,
        &tap_values::MAC_ONE,
    );
}

pub fn second_tap(rt: &impl Print, tally: &mut Tally) {
    let tap = tap(tap_values::UID_TWO, 8);
    let picc = sdm::picc_data(KEY, tap, kept(tap_values::PADDING_TWO));
    let key = sdm::tap_enc_key(KEY, tap);
    let mut text = tap_values::TEXT_TWO;
    let hidden = sdm::tap_encrypt(key.bytes, 8, &mut text);
    let mac = sdm::tap_mac(sdm::tap_mac_key(KEY, tap).bytes, &tap_values::INPUT_TWO);
    tally.compare(
        rt,
        "PICCData of the second tap",
        &picc.bytes,
        &tap_values::PICC_TWO,
    );
    tally.count(rt, "length of SDMENCFileData", hidden.is_ok());
    tally.compare(rt, "SDMENCFileData", &text, &tap_values::HIDDEN_TWO);
    tally.compare(
        rt,
        "SDMMAC of the second tap",
        &mac.bytes,
        &tap_values::MAC_TWO,
    );
}
