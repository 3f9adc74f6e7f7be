// What is kept of a tag between runs: what a file's bytes give a run to start from.
#![tactic(auto)]

ghost use Rattle.std.specs.Prelude.{◌≡◌, false, Err};
ghost use Rattle.keeping.specs.declared.NoStart.TheVariants.{NoUid};
ghost use Rattle.keeping.specs.Keep.{Starts, start_by, earlier, not_kept, Keeps};

use delivery::WrongUid;
use image::{NoImage, NotRead};
use state::Tag;

// Why a run does not start.
#[derive(Clone, Copy, Debug, PartialEq, Eq)]
pub enum NoStart {
    OtherLength,
    OtherVersion,
    NotABit,
    Unsound,
    OtherUid,
    NoUid,
    Unread,
    EarlierVersion,
}

// Why a run does not start, and the tag beside it: the one that a file holds where it is not sound or another's, one of zeros otherwise.
#[derive(Clone, Copy)]
pub struct NotKept {
    pub why: NoStart,
    pub beside: Tag,
}

impl From<WrongUid> for NoStart {
    ghost from_gives = { λ _ e. e ≡ NoUid };

    fn from(_e: WrongUid) -> NoStart {
        NoStart::NoUid
    }
}

impl From<NoImage> for NoStart {
    ghost from_gives = { λ found e. e ≡ start_by found false };

    #[tactic(auto, unfolding(crate::specs::Keep::start_by))]
    fn from(found: NoImage) -> NoStart {
        match found {
            NoImage::WrongLength => NoStart::OtherLength,
            NoImage::WrongVersion => NoStart::OtherVersion,
            NoImage::NotABoolean => NoStart::NotABit,
        }
    }
}

impl From<WrongUid> for NotKept {
    ghost from_gives = { λ e k. k ≡ not_kept NoUid e.beside };

    fn from(e: WrongUid) -> NotKept {
        NotKept {
            why: NoStart::from(e),
            beside: e.beside,
        }
    }
}

impl From<NotRead> for NotKept {
    ghost from_gives = { λ e k. k ≡ not_kept (start_by e.why false) e.beside };

    fn from(e: NotRead) -> NotKept {
        NotKept {
            why: NoStart::from(e.why),
            beside: e.beside,
        }
    }
}

// No run starts, for this reason and with this tag beside it.
fn not_kept(why: NoStart, beside: Tag) -> Result<Tag, NotKept>
    ensures { result ≡ Err (not_kept why beside) }
{
    Err(NotKept { why, beside })
}

// The fresh tag with a UID, where it is one.
#[tactic(auto, unfolding(delivery::specs::Fresh::born, delivery::specs::Fresh::right_uid, crate::specs::Keep::fresh_start, crate::specs::Keep::start_number, crate::specs::Keep::reason_number))]
pub fn anew(uid: &[u8; 7]) -> Result<Tag, NotKept>
    ensures { Starts uid.now result }
{
    Ok(delivery::fresh(uid)?)
}

// Whether the bytes are an image of version 1.
#[tactic(auto, unfolding(crate::specs::Keep::earlier))]
fn is_earlier(s: &[u8]) -> bool
    ensures { result ≡ earlier s.now }
{
    s.len() == 672 && s[0] == 1
}

// The tag with this UID that a file's bytes hold, or why there is none: a whole image must hold a sound state of the tag that
// the plan is for.
pub fn kept(s: &[u8], uid: &[u8; 7]) -> Result<Tag, NotKept>
    ensures { Keeps s.now uid.now result }
{
    if is_earlier(s) {
        return not_kept(NoStart::EarlierVersion, delivery::blank());
    }
    let tag = restoring::from_image(s)?;
    if !soundness::sound(tag) {
        return not_kept(NoStart::Unsound, tag);
    }
    if *uid != tag.uid {
        return not_kept(NoStart::OtherUid, tag);
    }
    Ok(tag)
}
