// ChangeFileSettings (10.7.1).
#![tactic(auto)]

ghost use Rattle.std.specs.Prelude.{◌≡◌, not};
ghost use Rattle.base.specs.Decide.{pick, and};
ghost use Rattle.statuses.specs.Words.{status_word};
ghost use Rattle.replies.specs.Answer.{Gives};
ghost use Rattle.change_settings.specs.ChangeSettings.{with_rules, recounted, restrung, refusal_word, changed_settings};

use buffers::Buffer;
use messaging::Mode;
use normalising::NotNormal;
use replies::Done;
use spans::Reading;
use state::{Files, Tag, Tapping};
use statuses::Status;

// The files with another settings string of file n.
#[tactic(auto, unfolding(crate::specs::ChangeSettings::with_rules), using(state::proofs::Strings::slot_small))]
fn with_rules(f: Files, n: u8, text: [u8; 27], len: u8) -> Files
    ensures { result ≡ with_rules f n text len }
{
    let i = state::slot_of(n);
    let mut files = f;
    base::put(&text, &mut files.rules, i * 27);
    base::put(&[len], &mut files.lens, i);
    files
}

// The tap counter after a change of SDM: 0 where it turns from off to on.
fn recount(counter: u32, before: bool, after: bool) -> u32
    ensures { result ≡ pick (and after (not before)) 0 counter }
{
    if after && !before { 0 } else { counter }
}

// The tap state after a change of SDM.
#[tactic(auto, unfolding(crate::specs::ChangeSettings::recounted))]
fn retap(t: Tapping, before: bool, after: bool) -> Tapping
    ensures { result ≡ recounted t before after }
{
    let counter = recount(t.counter, before, after);
    Tapping { counter, ..t }
}

// The tag with other files, where SDM of the file was on before and is on after.
#[tactic(auto, unfolding(crate::specs::ChangeSettings::restrung, state::specs::State::filed, state::specs::State::tapped))]
fn restring(tag: Tag, before: bool, after: bool, files: Files) -> Tag
    ensures { result ≡ restrung tag before after files }
{
    let tap = retap(tag.tap, before, after);
    Tag { files, tap, ..tag }
}

// The status of a string that has no normal form.
fn refusal_of(reason: NotNormal) -> Status
    ensures { status_word result ≡ refusal_word reason }
{
    match reason {
        NotNormal::Fault(fault) => fault.into(),
        NotNormal::RoomTooSmall => Status::LengthError,
    }
}

// ChangeFileSettings of file n, of which r are the settings before. A good string has at most 27 bytes, so the room is never too
// small; step 5 has judged the file byte before.
pub fn change_settings(tag: Tag, n: u8, r: Reading, p: &[u8], m: Mode) -> Done
    ensures { Gives (changed_settings tag n r p.now m) result }
{
    let mut text = [0; 27];
    match normalising::normalise(n, p, &mut text) {
        Ok(length) => {
            let files = with_rules(tag.files, n, text, length as u8);
            let changed = restring(tag, r.settings.head.sdm, fields::sdm_on(p), files);
            replies::accept(changed, m, Buffer::empty())
        }
        Err(reason) => replies::refuse(tag, refusal_of(reason)),
    }
}
