// Step 9 of ReadData and WriteData (10.8).
#![tactic(auto)]

ghost use Rattle.std.specs.Prelude.{◌≡◌, ◌+◌, ltb};
ghost use Rattle.spans.specs.Spans.{SpansFit};
ghost use Rattle.statuses.specs.Words.{word_or_0};
ghost use Rattle.replies.specs.Answer.{Gives};
ghost use Rattle.contents.specs.Contents.{range_status, asked, wrapped_part, read_data, write_status, written_data};

use access::Decision;
use buffers::Buffer;
use messaging::Mode;
use order::Command;
use replies::Done;
use spans::Reading;
use state::Tag;
use statuses::Status;

// Whether so many bytes from an offset on go past the end.
fn goes_past(at: usize, count: usize, size: usize) -> bool
    ensures { result ≡ ltb size (at + count) }
{
    size < at || size - at < count
}

// 919E for the range of a read.
#[tactic(auto, unfolding(crate::specs::Contents::range_status))]
fn range_status(at: usize, count: usize, size: usize) -> Result<(), Status>
    ensures { word_or_0 result ≡ range_status at count size }
{
    if size <= at || goes_past(at, count, size) {
        return Err(Status::ParameterError);
    }
    Ok(())
}

// Length 0 means to the end.
#[tactic(auto, unfolding(crate::specs::Contents::asked))]
fn asked_for(at: usize, count: usize, size: usize) -> usize
    ensures { result ≡ asked at count size }
{
    if count == 0 {
        size.saturating_sub(at)
    } else {
        count
    }
}

// ReadData behind its range: a tap, or the stored bytes.
#[tactic(auto, unfolding(crate::specs::Contents::wrapped_part))]
fn wrapped_part(
    tag: Tag,
    k: Command,
    r: Reading,
    d: Decision,
    count: usize,
    random: [u8; 20],
) -> Done
    requires { SpansFit r }
    ensures { Gives (wrapped_part tag k r d count random) result }
{
    if d.tap {
        return taps::read_tap(tag, r, false, k.offset, count, random);
    }
    file_parts::read_stored(tag, d.mode, k.file, k.offset, count)
}

// ReadData; r are the file's settings.
#[tactic(auto, unfolding(crate::specs::Contents::read_data))]
pub fn read_data(tag: Tag, k: Command, r: Reading, d: Decision, random: [u8; 20]) -> Done
    requires { SpansFit r }
    ensures { Gives (read_data tag k r d random) result }
{
    let size = state::file_size(k.file);
    match range_status(k.offset, k.count, size) {
        Ok(()) => wrapped_part(tag, k, r, d, asked_for(k.offset, k.count, size), random),
        Err(status) => replies::refuse(tag, status),
    }
}

// What refuses a write: length 0 919E, data not that length 917E, past the end 91BE.
#[tactic(auto, unfolding(crate::specs::Contents::write_status))]
fn write_status(at: usize, count: usize, given: usize, size: usize) -> Result<(), Status>
    ensures { word_or_0 result ≡ write_status at count given size }
{
    if count == 0 {
        return Err(Status::ParameterError);
    }
    if count != given {
        return Err(Status::LengthError);
    }
    if goes_past(at, count, size) {
        return Err(Status::BoundaryError);
    }
    Ok(())
}

// WriteData; p is the data.
#[tactic(auto, unfolding(crate::specs::Contents::written_data, state::specs::State::filed))]
pub fn write_data(tag: Tag, k: Command, p: &[u8], m: Mode) -> Done
    ensures { Gives (written_data tag k p.now m) result }
{
    let size = state::file_size(k.file);
    match write_status(k.offset, k.count, p.len(), size) {
        Ok(()) => {
            let files = file_parts::with_bytes(tag.files, k.file, k.offset, p);
            replies::accept(Tag { files, ..tag }, m, Buffer::empty())
        }
        Err(status) => replies::refuse(tag, status),
    }
}
