// Wrapped commands (CLA 90): 01's steps 8 and 9.
#![tactic(auto)]

ghost use Rattle.std.specs.Prelude.{◌≡◌, ◌≤◌};
ghost use Rattle.spans.specs.Spans.{SpansFit};
ghost use Rattle.statuses.specs.Words.{status_word};
ghost use Rattle.replies.specs.Answer.{Gives, answer_of, costing};
ghost use Rattle.wrapped.specs.Wrapped.{own, refused_word, wrapped};

use access::Decision;
use opening::NotOpened;
use order::{Command, Name};
use replies::Done;
use spans::Reading;
use state::Tag;
use statuses::Status;

// Step 9.
#[tactic(auto, unfolding(crate::specs::Wrapped::own))]
fn own(tag: Tag, k: Command, r: Reading, d: Decision, p: &[u8], random: [u8; 20]) -> Done
    requires { SpansFit r }
    ensures { Gives (own k.name tag k r d p.now random) result }
{
    match k.name {
        Name::ChangeKey => keyring::change_key(tag, k.key, p),
        Name::GetKeyVersion => keyring::key_version(tag, k.key, d.mode),
        Name::GetCardUid => details::card_uid(tag),
        Name::GetFileSettings => details::file_settings(tag, k.file, d.mode),
        Name::ChangeFileSettings => change_settings::change_settings(tag, k.file, r, p, d.mode),
        Name::GetFileCounters => details::file_counters(tag, d.mode),
        Name::ReadData => contents::read_data(tag, k, r, d, random),
        Name::WriteData => contents::write_data(tag, k, p, d.mode),
        Name::AuthenticateFirst
        | Name::AuthenticateNonFirst
        | Name::PartTwo
        | Name::IsoSelectFile
        | Name::IsoReadBinary
        | Name::IsoUpdateBinary => replies::refuse(tag, Status::IllegalCommandCode),
    }
}

// What refuses a message that is not opened.
fn refused(why: NotOpened) -> Status
    ensures { status_word result ≡ refused_word why }
{
    match why {
        NotOpened::WrongMac | NotOpened::WrongPadding => Status::IntegrityError,
        NotOpened::WrongLength | NotOpened::TooLong | NotOpened::NoRoom => Status::LengthError,
    }
}

// An answer for n blocks more.
#[tactic(auto, unfolding(replies::specs::Answer::answer_of))]
fn costed(done: Done, n: usize) -> Done
    requires { (done.data.length ≤ 256) × (done.cost ≤ 64) × (n ≤ 64) }
    ensures { Gives (costing n (answer_of done)) result }
{
    Done {
        cost: n + done.cost,
        ..done
    }
}

// A command, granted so, of which r are its file's settings and x the message.
pub fn wrapped(tag: Tag, k: Command, r: Reading, d: Decision, x: &[u8], random: [u8; 20]) -> Done
    requires { SpansFit r }
    ensures { Gives (wrapped tag k r d x.now random) result }
{
    let mut plain = [0; 256];
    let session = state::session_of(tag.live);
    let opened = opening::open(session, d.mode, k.ins, x, k.header, k.parted, &mut plain);
    match opened.data {
        Ok(n) => costed(own(tag, k, r, d, &plain[..n], random), opened.cost),
        Err(why) => costed(replies::refuse(tag, refused(why)), opened.cost),
    }
}
