// The way of a command: steps 1 to 5, access, step 7, and then the command itself; and what a journal notes of it.
ghost use Rattle.std.specs.Prelude.{true, ◌≡◌, ◌≤◌, eqb, length, Some};
ghost use Rattle.base.specs.Decide.{pick};
ghost use Rattle.spans.specs.Spans.{SpansFit};
ghost use Rattle.state.specs.State.{reading_in};
ghost use Rattle.soundness.specs.Sound.{sound_tag, judged_tag};
ghost use Rattle.order.specs.Commands.{data_of};
ghost use Rattle.access.specs.Access.{decided};
ghost use Rattle.statuses.specs.Words.{status_word};
ghost use Rattle.replies.specs.Answer.{Gives};
ghost use Rattle.tag.specs.Way.{used_up, from_step7, from_step6, commanded, answered, noted};

use access::{Decision, Grant};
use order::{Command, Name};
use replies::Done;
use soundness::Judged;
use spans::Reading;
use state::{Live, Tag};
use statuses::Status;

// In session with CmdCtr used up.
fn used_up(live: Live) -> bool
    ensures { result ≡ used_up live.on live.counter }
{
    live.on && live.counter == 65535
}

// One status for a wrapped command, one for CLA 00.
fn by_class(class: u8, wrapped: Status, iso: Status) -> Status
    ensures { status_word result ≡ pick (eqb class 0x90) (status_word wrapped) (status_word iso) }
{
    if class == 0x90 { wrapped } else { iso }
}

// Steps 7 to 9 of a command that is granted.
#[tactic(auto, unfolding(crate::specs::Way::from_step7))]
fn from_step_7(tag: Tag, k: Command, r: Reading, d: Decision, x: &[u8], random: [u8; 20]) -> Done
    requires { SpansFit r }
    ensures { Gives (from_step7 tag k r d x.now random) result }
{
    if used_up(tag.live) {
        let status = by_class(k.class, Status::AuthenticationError, Status::IsoSecurity);
        return replies::refuse(tag, status);
    }
    if k.class == 0x90 {
        return wrapped::wrapped(tag, k, r, d, x, random);
    }
    binaries::binary(tag, k, r, d, x, random)
}

// Step 6: access, as it was decided.
#[tactic(auto, unfolding(crate::specs::Way::from_step6, crate::specs::Way::on_grant, access::specs::Access::grant_status))]
fn from_step_6(tag: Tag, k: Command, r: Reading, d: Decision, x: &[u8], random: [u8; 20]) -> Done
    requires spans_fit { SpansFit r }
    requires d_value { d ≡ decided k.name tag.live r.settings.head }
    ensures { Gives (from_step6 tag k r x.now random) result }
{
    let status = match d.grant {
        Grant::Never => Status::PermissionDenied,
        Grant::Denied => Status::AuthenticationError,
        Grant::ByKey(_) | Grant::ByTap | Grant::Free(_) | Grant::Unasked => {
            return from_step_7(tag, k, r, d, x, random);
        }
    };
    replies::refuse(tag, by_class(k.class, status, Status::IsoSecurity))
}

// A command behind steps 1 to 5, its data among its bytes; r are the settings of its file, d is the decision.
#[tactic(auto, unfolding(crate::specs::Way::commanded, order::specs::Commands::data_of))]
fn commanded(tag: Tag, k: Command, r: Reading, d: Decision, c: &[u8], random: [u8; 20]) -> Done
    requires spans_fit { SpansFit r }
    requires d_value { d ≡ decided k.name tag.live r.settings.head }
    requires data_inside { (k.start ≤ k.end) × (k.end ≤ length c.now) }
    ensures { Gives (commanded k.name tag k r (data_of k c.now) random) result }
{
    let x = &c[k.start..k.end];
    match k.name {
        Name::AuthenticateFirst => auth::first(tag, x, random),
        Name::AuthenticateNonFirst => auth::next(tag, x, random),
        Name::PartTwo => part_two::second(tag, x, random),
        Name::IsoSelectFile => selects::select(tag, k.p1, k.p2, x),
        _ => from_step_6(tag, k, r, d, x, random),
    }
}

// An answer, and what a journal notes of it.
#[derive(Clone, Copy)]
pub struct Journalled {
    pub done: Done,
    pub noted: Option<Grant>,
}

// The access decision, asked once, and what follows from it.
fn on_command(tag: Tag, k: Command, r: Reading, c: &[u8], random: [u8; 20]) -> Journalled
    requires spans_fit { SpansFit r }
    requires data_inside { (k.start ≤ k.end) × (k.end ≤ length c.now) }
    ensures answer { Gives (commanded k.name tag k r (data_of k c.now) random) result.done }
    ensures noted { result.noted ≡ Some (decided k.name tag.live r.settings.head).grant }
{
    let d = access::decide(k.name, tag.live, r.settings.head);
    Journalled {
        done: commanded(tag, k, r, d, c, random),
        noted: Some(d.grant),
    }
}

// What the settings of file n mean, as judging read them; a number that no file has is asked of the state.
#[tactic(auto, unfolding(soundness::specs::Sound::judged_tag))]
fn reading_for(tag: Tag, j: Judged, n: u8) -> Reading
    requires { j ≡ judged_tag tag }
    ensures { result ≡ reading_in tag.files n }
{
    match n {
        1 => j.first,
        2 => j.second,
        3 => j.third,
        _ => state::reading_in(tag.files, n),
    }
}

// The answer to a command, of a sound tag that was judged so.
#[tactic(auto, unfolding(crate::specs::Way::answered, crate::specs::Way::noted))]
pub fn answered(tag: Tag, j: Judged, c: &[u8], random: [u8; 20]) -> Journalled
    requires j_value { j ≡ judged_tag tag }
    requires tag_value { sound_tag tag ≡ true }
    ensures answer { Gives (answered tag c.now random) result.done }
    ensures noted { result.noted ≡ noted tag c.now }
{
    match order::command_in(c, tag.pending.on, tag.place.application, tag.place.file) {
        Ok(k) => on_command(tag, k, reading_for(tag, j, k.file), c, random),
        Err(status) => Journalled {
            done: replies::refuse(tag, status),
            noted: None,
        },
    }
}
