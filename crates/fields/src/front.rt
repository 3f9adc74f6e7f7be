// The fields in front of a string, and which of those behind are present.
ghost use Rattle.std.specs.Prelude.{◌≡◌};
ghost use Rattle.fields.specs.Fields.{sdm_on, sdm_byte, mode_of, head_of, has_uid, has_counter, has_picc, has_mac, has_enc, present};

use super::Head;

#[tactic(auto, unfolding(crate::specs::Fields::mode_of))]
fn mode_of(b: u8) -> u8
    ensures { result ≡ mode_of b }
{
    if b % 4 == 2 { 0 } else { b % 4 }
}

// A byte of SDM's, and 0 where SDM is off.
#[tactic(auto, unfolding(crate::specs::Fields::sdm_byte))]
fn sdm_byte(s: &[u8], i: usize) -> u8
    ensures { result ≡ sdm_byte s.now i }
{
    if sdm_on(s) { base::at(s, i) } else { 0 }
}

#[tactic(auto, unfolding(crate::specs::Fields::sdm_on))]
pub fn sdm_on(s: &[u8]) -> bool
    ensures { result ≡ sdm_on s.now }
{
    base::at(s, 0) / 64 % 2 == 1
}

#[tactic(auto, unfolding(crate::specs::Fields::head_of))]
pub fn head(s: &[u8]) -> Head
    ensures { result ≡ head_of s.now }
{
    let high = base::at(s, 2);
    let low = base::at(s, 1);
    let o = sdm_byte(s, 3);
    let sdm_high = sdm_byte(s, 5);
    Head {
        mode: mode_of(base::at(s, 0)),
        read: high / 16,
        write: high % 16,
        read_write: low / 16,
        change: low % 16,
        sdm: sdm_on(s),
        uid: o / 128 % 2 == 1,
        counter: o / 64 % 2 == 1,
        limit: o / 32 % 2 == 1,
        enc: o / 16 % 2 == 1,
        sdm_meta_read: sdm_high / 16,
        sdm_file_read: sdm_high % 16,
        sdm_ctr_ret: sdm_byte(s, 4) % 16,
    }
}

#[tactic(auto, unfolding(crate::specs::Fields::has_uid))]
pub fn has_uid(h: Head) -> bool
    ensures { result ≡ has_uid h }
{
    h.uid && h.sdm_meta_read == 14
}

#[tactic(auto, unfolding(crate::specs::Fields::has_counter))]
pub fn has_counter(h: Head) -> bool
    ensures { result ≡ has_counter h }
{
    h.counter && h.sdm_meta_read == 14
}

#[tactic(auto, unfolding(crate::specs::Fields::has_picc))]
pub fn has_picc(h: Head) -> bool
    ensures { result ≡ has_picc h }
{
    h.sdm && h.sdm_meta_read <= 4
}

#[tactic(auto, unfolding(crate::specs::Fields::has_mac))]
pub fn has_mac(h: Head) -> bool
    ensures { result ≡ has_mac h }
{
    h.sdm && h.sdm_file_read != 15
}

#[tactic(auto, unfolding(crate::specs::Fields::has_enc))]
pub fn has_enc(h: Head) -> bool
    ensures { result ≡ has_enc h }
{
    h.enc && has_mac(h)
}

// Which of the fields behind are present, in the order of Table 69.
#[tactic(auto, unfolding(crate::specs::Fields::present))]
pub fn present_fields(h: Head) -> [bool; 8]
    ensures { result ≡ present h }
{
    let mac = has_mac(h);
    let enc = has_enc(h);
    let uid = has_uid(h);
    let counter = has_counter(h);
    let picc = has_picc(h);
    [uid, counter, picc, mac, enc, enc, mac, h.limit]
}
