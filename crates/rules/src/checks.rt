// The single tests of 01.
ghost use Rattle.std.specs.Prelude.{◌≡◌};
ghost use Rattle.rules.specs.Rules.{option_bits, sdm_file, condition, rights, sdm_options_bits, sdm_rights};
ghost use Rattle.rules.specs.Rules.{meta_mirrors, meta_off, enc_needs, enc_size, mac_input, enc_between};

use fields::{Head, Settings};

#[tactic(auto, unfolding(crate::specs::Rules::option_bits))]
pub fn option_bits(b: u8) -> bool
    ensures { result ≡ option_bits b }
{
    b / 128 == 0 && b / 4 % 16 == 0
}

#[tactic(auto, unfolding(crate::specs::Rules::sdm_file))]
pub fn sdm_file(file: u8, h: Head) -> bool
    ensures { result ≡ sdm_file file h }
{
    !h.sdm || file == 2
}

#[tactic(auto, unfolding(crate::specs::Rules::condition))]
fn is_condition(c: u8) -> bool
    ensures { result ≡ condition c }
{
    c <= 4 || c == 14 || c == 15
}

#[tactic(auto, unfolding(crate::specs::Rules::rights))]
pub fn rights_kept(h: Head) -> bool
    ensures { result ≡ rights h }
{
    is_condition(h.read)
        && is_condition(h.write)
        && is_condition(h.read_write)
        && is_condition(h.change)
}

#[tactic(auto, unfolding(crate::specs::Rules::sdm_options_bits))]
pub fn sdm_options_bits(b: u8) -> bool
    ensures { result ≡ sdm_options_bits b }
{
    b % 16 == 1
}

#[tactic(auto, unfolding(crate::specs::Rules::sdm_rights))]
pub fn sdm_rights(h: Head) -> bool
    ensures { result ≡ sdm_rights h }
{
    is_condition(h.sdm_meta_read)
        && is_condition(h.sdm_file_read)
        && h.sdm_file_read != 14
        && is_condition(h.sdm_ctr_ret)
}

#[tactic(auto, unfolding(crate::specs::Rules::meta_mirrors))]
pub fn meta_mirrors(h: Head) -> bool
    ensures { result ≡ meta_mirrors h }
{
    5 <= h.sdm_meta_read || h.uid || h.counter
}

#[tactic(auto, unfolding(crate::specs::Rules::meta_off))]
pub fn meta_off(h: Head) -> bool
    ensures { result ≡ meta_off h }
{
    h.sdm_meta_read != 15 || !h.uid && !h.counter
}

#[tactic(auto, unfolding(crate::specs::Rules::enc_needs))]
pub fn enc_needs(h: Head) -> bool
    ensures { result ≡ enc_needs h }
{
    !h.enc || h.sdm_file_read != 15 && h.uid && h.counter
}

#[tactic(auto, unfolding(crate::specs::Rules::enc_size))]
pub fn enc_size(r: Settings) -> bool
    ensures { result ≡ enc_size r }
{
    let p = r.places;
    !fields::has_enc(r.head) || p.size % 32 == 0 && 32 <= p.size
}

#[tactic(auto, unfolding(crate::specs::Rules::mac_input))]
pub fn mac_input(r: Settings) -> bool
    ensures { result ≡ mac_input r }
{
    let p = r.places;
    !fields::has_mac(r.head) || p.input <= p.mac
}

#[tactic(auto, unfolding(crate::specs::Rules::enc_between))]
pub fn enc_between(r: Settings) -> bool
    ensures { result ≡ enc_between r }
{
    let p = r.places;
    let end = u64::from(p.enc) + u64::from(p.size);
    !fields::has_enc(r.head) || p.input <= p.enc && end <= u64::from(p.mac)
}
