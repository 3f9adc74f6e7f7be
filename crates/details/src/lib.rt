// GetCardUID, GetFileSettings and GetFileCounters (10.5.3, 10.7).
#![tactic(auto)]

ghost use Rattle.std.specs.Prelude.{◌≡◌, ◌≤◌, length};
ghost use Rattle.base.specs.Bytes.{low};
ghost use Rattle.buffers.specs.Text.{text_of};
ghost use Rattle.replies.specs.Answer.{Gives};
ghost use Rattle.details.specs.Details.{card_uid, settings_reply, file_settings, file_counters};

use buffers::Buffer;
use messaging::Mode;
use replies::Done;
use state::Tag;

// GetCardUID.
#[tactic(auto, unfolding(crate::specs::Details::card_uid), using(replies::proofs::Given::buffer_given))]
pub fn card_uid(tag: Tag) -> Done
    ensures { Gives (card_uid tag) result }
{
    let uid = tag.uid;
    replies::accept(tag, Mode::Full, Buffer::of(&uid))
}

// A number's three low bytes, low byte first.
#[tactic(auto, unfolding(base::specs::Bytes::low))]
fn low_three(v: usize) -> [u8; 3]
    ensures { result ≡ low 3 v }
{
    let [a, b, c, ..] = v.to_le_bytes();
    [a, b, c]
}

// 00, FileOption, rights, size, the rest, of a settings string.
#[tactic(auto, using(crate::proofs::Replies::settings_pieced))]
fn settings_reply(s: &[u8], size: usize) -> Buffer<258>
    requires { length s.now ≤ 27 }
    ensures { text_of result ≡ settings_reply s.now size }
{
    let (before_size, behind_size) = s.split_at(s.len().min(3));
    let mut reply = Buffer::of(&[0]);
    reply.append(before_size);
    reply.append(&low_three(size));
    reply.append(behind_size);
    reply
}

// GetFileSettings of file n.
#[tactic(auto, using(crate::proofs::Replies::string_short))]
pub fn file_settings(tag: Tag, n: u8, mode: Mode) -> Done
    ensures { Gives (file_settings tag n mode) result }
{
    let rules = tag.files.rules;
    let settings = state::string_in(&rules, tag.files.lens, n);
    replies::accept(tag, mode, settings_reply(settings, state::file_size(n)))
}

// GetFileCounters: the tap counter and two zeros.
#[tactic(auto, unfolding(crate::specs::Details::file_counters, base::specs::Bytes::low), using(replies::proofs::Given::buffer_given))]
pub fn file_counters(tag: Tag, mode: Mode) -> Done
    ensures { Gives (file_counters tag mode) result }
{
    let [a, b, c, _] = tag.tap.counter.to_le_bytes();
    replies::accept(tag, mode, Buffer::of(&[a, b, c, 0, 0]))
}
