// A tap (9.3): where it starts, the limit and the end of the counter, and the mirrored file.
ghost use Rattle.std.specs.Prelude.{◌≡◌};
ghost use Rattle.base.specs.Decide.{pick};
ghost use Rattle.base.specs.Status.{operation_ok, iso_normal};
ghost use Rattle.aes.specs.Block.{counted as with_cost};
ghost use Rattle.state.specs.State.{file_of};
ghost use Rattle.spans.specs.Spans.{SpansFit};
ghost use Rattle.mirror.specs.Mirrors.{dynamic_cost};
ghost use Rattle.statuses.specs.Words.{status_word, word_or_0};
ghost use Rattle.replies.specs.Answer.{Gives};
ghost use Rattle.taps.specs.Taps.{goes_on, start_status, read_status, counted, started, tap_of, mirror_for, tap_text, tap_status, tap_part, tap_read};

use aes::Counted;
use fields::Head;
use mirror::Mirror;
use replies::Done;
use sdm::Tap;
use spans::Reading;
use state::{Files, Tag, Tapping};
use statuses::Status;

// Whether a tap by the same read command runs already.
#[tactic(auto, unfolding(crate::specs::Taps::goes_on))]
fn goes_on(t: Tapping, iso: bool) -> bool
    ensures { result ≡ goes_on t iso }
{
    t.on && t.iso == iso
}

// Why a tap can't start: the limit (919D), then the end of the counter (911E).
#[tactic(auto, unfolding(crate::specs::Taps::start_status))]
fn start_status(going: bool, counter: u32, limited: bool, limit: u32) -> Result<(), Status>
    ensures { word_or_0 result ≡ start_status going counter limited limit }
{
    if going {
        return Ok(());
    }
    if limited && limit <= counter {
        return Err(Status::PermissionDenied);
    }
    if 16777215 <= counter {
        return Err(Status::IntegrityError);
    }
    Ok(())
}

// The same of a read, by the state and file 2's settings.
#[tactic(auto, unfolding(crate::specs::Taps::read_status))]
fn read_status(t: Tapping, r: Reading, iso: bool) -> Result<(), Status>
    ensures { word_or_0 result ≡ read_status t r iso }
{
    start_status(
        goes_on(t, iso),
        t.counter,
        r.settings.head.limit,
        r.settings.places.limit,
    )
}

// The counter of a tap that starts: one more.
#[tactic(auto, unfolding(crate::specs::Taps::counted))]
fn count(counter: u32) -> u32
    ensures { result ≡ counted counter }
{
    if counter < 16777215 {
        counter + 1
    } else {
        counter
    }
}

// A tap that starts keeps the first twelve random bytes.
#[tactic(auto, unfolding(crate::specs::Taps::started))]
fn begin(t: Tapping, iso: bool, random: [u8; 20]) -> Tapping
    ensures { result ≡ started t iso random }
{
    let mut padding = [0; 12];
    padding.copy_from_slice(&random[..12]);
    Tapping {
        on: true,
        iso,
        counter: count(t.counter),
        padding,
    }
}

// The tap that a read belongs to: the one that runs, or one that starts.
#[tactic(auto, unfolding(crate::specs::Taps::tap_of))]
fn tap_of(t: Tapping, iso: bool, random: [u8; 20]) -> Tapping
    ensures { result ≡ tap_of t iso random }
{
    if goes_on(t, iso) {
        t
    } else {
        begin(t, iso, random)
    }
}

// What is mirrored, with which keys and which padding.
#[tactic(auto, unfolding(crate::specs::Taps::mirror_for))]
fn mirror_for(tag: Tag, h: Head) -> Mirror
    ensures { result ≡ mirror_for tag h }
{
    let uid = tag.uid;
    let keys = tag.secrets.keys;
    let padding = tag.tap.padding;
    Mirror {
        tap: Tap {
            uid,
            counter: tag.tap.counter,
            names: h.uid,
            counts: h.counter,
        },
        meta_key: state::key_of(keys, h.sdm_meta_read),
        file_key: state::key_of(keys, h.sdm_file_read),
        padding,
    }
}

// File 2's stored bytes.
#[tactic(auto, unfolding(state::specs::State::file_of, state::specs::State::start_of, state::specs::State::size_of))]
fn second(f: Files) -> [u8; 256]
    ensures { result ≡ file_of f 2 }
{
    let mut bytes = [0; 256];
    bytes.copy_from_slice(&f.bytes[32..288]);
    bytes
}

// File 2 as a tap shows it, while it runs.
#[tactic(auto, unfolding(crate::specs::Taps::tap_text))]
fn tap_text(tag: Tag, r: Reading) -> Counted<256>
    requires { SpansFit r }
    ensures { result ≡ with_cost (tap_text tag r) (dynamic_cost r) }
{
    mirror::lay(second(tag.files), r, mirror_for(tag, r.settings.head))
}

// A tap's status, as an ISO one where it is.
#[tactic(auto, unfolding(crate::specs::Taps::tap_status))]
fn tap_status(iso: bool, status: Status) -> Status
    ensures { status_word result ≡ tap_status iso (status_word status) }
{
    if iso { Status::IsoSecurity } else { status }
}

// The status that accepts.
fn accepting(iso: bool) -> Status
    ensures { status_word result ≡ pick iso iso_normal operation_ok }
{
    if iso {
        Status::IsoNormal
    } else {
        Status::OperationOk
    }
}

// The part of the mirrored file that is asked for, while a tap runs.
#[tactic(auto, unfolding(crate::specs::Taps::tap_part))]
fn give_part(tag: Tag, r: Reading, iso: bool, at: usize, count: usize) -> Done
    requires { SpansFit r }
    ensures { Gives (tap_part tag r iso at count) result }
{
    let shown = tap_text(tag, r);
    let part = file_parts::cut(&shown.bytes, at, count);
    replies::give(tag, accepting(iso), part, shown.cost)
}

// A read of file 2 that is a tap, by ISOReadBinary or by ReadData; r are its settings.
#[tactic(auto, unfolding(crate::specs::Taps::tap_read, state::specs::State::tapped))]
pub fn read_tap(tag: Tag, r: Reading, iso: bool, at: usize, count: usize, random: [u8; 20]) -> Done
    requires { SpansFit r }
    ensures { Gives (tap_read tag r iso at count random) result }
{
    match read_status(tag.tap, r, iso) {
        Ok(()) => {
            let tap = tap_of(tag.tap, iso, random);
            give_part(Tag { tap, ..tag }, r, iso, at, count)
        }
        Err(status) => replies::refuse(tag, tap_status(iso, status)),
    }
}
