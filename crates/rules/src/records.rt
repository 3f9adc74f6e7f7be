// The same rules of a record.
ghost use Rattle.std.specs.Prelude.{◌≡◌};
ghost use Rattle.rules.specs.Rules.{sdm_meets, sdm_absent, sdm_part, modes, meets};

use super::{checks, findings, fits};
use fields::{Head, Settings};

#[tactic(auto, unfolding(crate::specs::Rules::sdm_meets, crate::specs::Rules::kept))]
fn sdm_meets(r: Settings) -> bool
    ensures { result ≡ sdm_meets r }
{
    let h = r.head;
    checks::sdm_rights(h)
        && checks::meta_mirrors(h)
        && checks::meta_off(h)
        && checks::enc_needs(h)
        && findings::positions(r).is_ok()
}

#[tactic(auto, unfolding(crate::specs::Rules::sdm_absent))]
fn sdm_absent(h: Head) -> bool
    ensures { result ≡ sdm_absent h }
{
    let mirrors = h.uid || h.counter || h.limit || h.enc;
    !mirrors && h.sdm_meta_read == 0 && h.sdm_file_read == 0 && h.sdm_ctr_ret == 0
}

#[tactic(auto, unfolding(crate::specs::Rules::modes))]
fn is_mode(m: u8) -> bool
    ensures { result ≡ modes m }
{
    m <= 1 || m == 3
}

// Whether a record meets the rules for a file.
#[tactic(auto, unfolding(crate::specs::Rules::meets))]
pub fn record_meets(file: u8, r: Settings) -> bool
    ensures { result ≡ meets file r }
{
    let h = r.head;
    is_mode(h.mode)
        && checks::sdm_file(file, h)
        && checks::rights_kept(h)
        && fits::fields_fit(r)
        && sdm_part(r)
}

#[tactic(auto, unfolding(crate::specs::Rules::sdm_part))]
fn sdm_part(r: Settings) -> bool
    ensures { result ≡ sdm_part r }
{
    if r.head.sdm {
        sdm_meets(r)
    } else {
        sdm_absent(r.head)
    }
}
