// ISOReadBinary and ISOUpdateBinary (10.9.2, 10.9.3).
#![tactic(auto)]

ghost use Rattle.std.specs.Prelude.{◌≡◌};
ghost use Rattle.spans.specs.Spans.{SpansFit};
ghost use Rattle.replies.specs.Answer.{Gives};
ghost use Rattle.binaries.specs.Binaries.{iso_part, read_binary, updated_binary, binary};

use access::Decision;
use buffers::Buffer;
use messaging::Mode;
use order::Command;
use replies::Done;
use spans::Reading;
use state::Tag;
use statuses::Status;

// A part of the selected file that is there: a tap, or the stored bytes.
#[tactic(auto, unfolding(crate::specs::Binaries::iso_part))]
fn iso_part(tag: Tag, k: Command, r: Reading, d: Decision, count: usize, random: [u8; 20]) -> Done
    requires { SpansFit r }
    ensures { Gives (iso_part tag k r d count random) result }
{
    if d.tap {
        return taps::read_tap(tag, r, true, k.offset, count, random);
    }
    file_parts::read_stored_iso(tag, k.file, k.offset, count)
}

// ISOReadBinary of the selected file; Le 00 asks for all.
#[tactic(auto, unfolding(crate::specs::Binaries::read_binary))]
fn read_binary(tag: Tag, k: Command, r: Reading, d: Decision, random: [u8; 20]) -> Done
    requires { SpansFit r }
    ensures { Gives (read_binary tag k r d random) result }
{
    let size = state::file_size(k.file);
    if size <= k.offset {
        return replies::refuse(tag, Status::IsoWrongP1P2);
    }
    let left = size - k.offset;
    if left < k.count {
        return replies::refuse(tag, Status::WrongLe((left % 256) as u8));
    }
    let count = if k.count == 0 { left } else { k.count };
    iso_part(tag, k, r, d, count, random)
}

// ISOUpdateBinary of the selected file; x is the data.
#[tactic(auto, unfolding(crate::specs::Binaries::updated_binary, state::specs::State::filed))]
fn update_binary(tag: Tag, k: Command, x: &[u8]) -> Done
    ensures { Gives (updated_binary tag k x.now) result }
{
    let size = state::file_size(k.file);
    if size <= k.offset {
        return replies::refuse(tag, Status::IsoWrongP1P2);
    }
    if size - k.offset < x.len() {
        return replies::refuse(tag, Status::IsoWrongLc);
    }
    let files = file_parts::with_bytes(tag.files, k.file, k.offset, x);
    let next = replies::after(Tag { files, ..tag });
    replies::give(next, Status::IsoNormal, Buffer::empty(), 0)
}

// A read or an update of the selected file, granted so.
#[tactic(auto, unfolding(crate::specs::Binaries::binary))]
pub fn binary(tag: Tag, k: Command, r: Reading, d: Decision, x: &[u8], random: [u8; 20]) -> Done
    requires { SpansFit r }
    ensures { Gives (binary tag k r d x.now random) result }
{
    if d.mode != Mode::Plain {
        return replies::refuse(tag, Status::IsoSecurity);
    }
    if k.parted {
        update_binary(tag, k, x)
    } else {
        read_binary(tag, k, r, d, random)
    }
}
