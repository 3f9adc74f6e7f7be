// Soundness: 01's refusal 3, clause by clause, and the readings of the three files.
ghost use Rattle.std.specs.Prelude.{◌≡◌, leb};
ghost use Rattle.base.specs.Decide.{and};
ghost use Rattle.base.specs.Bytes.{byte_at};
ghost use Rattle.fields.specs.Fields.{read_of};
ghost use Rattle.spans.specs.Spans.{reading_of};
ghost use Rattle.state.specs.State.{slot_of, string_at};
ghost use Rattle.soundness.specs.Sound.{string_sound, keys_sound, alone_sound, padding_sound, level_sound, sound_tag, judged_tag};

use crate::Judged;
use spans::Reading;
use state::Tag;

// Whether the settings of a file have at most 27 bytes, keep the rules and are normal; and what they mean.
#[derive(Clone, Copy)]
struct FileJudged {
    sound: bool,
    reading: Reading,
}

// The settings of file n, read once.
#[tactic(auto, unfolding(settings::specs::Answers::seen))]
fn judge_settings(rules: &[u8; 81], lens: [u8; 3], n: u8) -> FileJudged
    ensures sound { result.sound ≡ and (leb (byte_at lens (slot_of n)) 27) (string_sound n (string_at rules.now lens n)) }
    ensures reading { result.reading ≡ reading_of (read_of (string_at rules.now lens n)) }
{
    let s = state::string_in(rules, lens, n);
    let seen = settings::see(n, s);
    let short = base::at(&lens, state::slot_of(n)) <= 27;
    FileJudged {
        sound: short && seen.verdict.is_ok() && normalising::is_normal(s),
        reading: seen.reading,
    }
}

// Key numbers over 4; session and pending part both.
#[tactic(auto, unfolding(crate::specs::Sound::keys_sound))]
fn keys_sound(live: bool, key: u8, pending: bool, other: u8) -> bool
    ensures { result ≡ keys_sound live key pending other }
{
    (!live || key <= 4) && (!pending || other <= 4) && !(live && pending)
}

// A tap with a session or a pending part, or with file 2's SDM off.
#[tactic(auto, unfolding(crate::specs::Sound::alone_sound))]
fn alone_sound(tap: bool, live: bool, pending: bool, sdm: bool) -> bool
    ensures { result ≡ alone_sound tap live pending sdm }
{
    !tap || !live && !pending && sdm
}

// No tap, and the kept padding not all zero.
#[tactic(auto, unfolding(crate::specs::Sound::padding_sound))]
fn padding_sound(tap: bool, padding: [u8; 12]) -> bool
    ensures { result ≡ padding_sound tap padding }
{
    tap || base::alike(&padding, &[0; 12])
}

// Session, pending part, tap or selected file at PICC level; a selected file not 1 to 3.
#[tactic(auto, unfolding(crate::specs::Sound::level_sound))]
fn level_sound(application: bool, live: bool, pending: bool, tap: bool, file: u8) -> bool
    ensures { result ≡ level_sound application live pending tap file }
{
    file <= 3 && (application || !live && !pending && !tap && file == 0)
}

// Whether a state is sound, and what its settings mean.
#[tactic(auto, unfolding(crate::specs::Sound::judged_tag, crate::specs::Sound::sound_tag, crate::specs::Sound::rules_sound, state::specs::State::reading_in, state::specs::State::rules_of))]
pub fn judge_tag(t: Tag) -> Judged
    ensures { result ≡ judged_tag t }
{
    let files = t.files;
    let one = judge_settings(&files.rules, files.lens, 1);
    let two = judge_settings(&files.rules, files.lens, 2);
    let three = judge_settings(&files.rules, files.lens, 3);
    let live = t.live.on;
    let pending = t.pending.on;
    let tap = t.tap.on;
    let sound = one.sound
        && two.sound
        && three.sound
        && t.tap.counter <= 16777215
        && t.uid[0] == 4
        && keys_sound(live, t.live.key, pending, t.pending.key)
        && alone_sound(tap, live, pending, two.reading.settings.head.sdm)
        && padding_sound(tap, t.tap.padding)
        && level_sound(t.place.application, live, pending, tap, t.place.file);
    Judged {
        sound,
        first: one.reading,
        second: two.reading,
        third: three.reading,
    }
}

// Whether a state is sound.
#[tactic(auto, unfolding(crate::specs::Sound::judged_tag))]
pub fn sound(t: Tag) -> bool
    ensures { result ≡ sound_tag t }
{
    judge_tag(t).sound
}
