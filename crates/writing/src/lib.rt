// Records written as settings strings.
#![tactic(auto)]

ghost use Rattle.std.specs.Prelude.{◌≡◌};
ghost use Rattle.rules.specs.Rules.{meets};
ghost use Rattle.writing.specs.declared.NotWritten.TheVariants.{NoFile};
ghost use Rattle.writing.specs.Answers.{record_as, record_room, written_as, written_room, written_number, writing_number};

use fields::Settings;
use settings::FileFault;

mod text;

// Why a record has no string.
#[derive(Clone, Copy, Debug, PartialEq, Eq)]
pub enum NotWritten {
    NoFile(FileFault),
    BadRecord,
    NoRoom,
}

impl From<FileFault> for NotWritten {
    ghost from_gives = { λ fault reason. reason ≡ NoFile fault };

    fn from(fault: FileFault) -> NotWritten {
        NotWritten::NoFile(fault)
    }
}

// The normal string of a record at the front of the room, with its length. A refusal leaves the room.
#[tactic(auto, unfolding(settings::specs::Filing::file_judged, crate::specs::Answers::written_number), using(crate::proofs::Counted::record_numbered))]
pub fn write(file: u8, r: Settings, room: &mut [u8]) -> Result<usize, NotWritten>
    ensures answer { result ≡ written_as file r room.old }
    ensures left { room.new ≡ written_room file r room.old }
    ensures number { written_number result ≡ writing_number file r room.old }
{
    settings::judge_file(file)?;
    write_record(file, r, room)
}

// The same for a file that there is.
#[tactic(auto, unfolding(crate::specs::Answers::record_as, crate::specs::Answers::record_room))]
fn write_record(file: u8, r: Settings, room: &mut [u8]) -> Result<usize, NotWritten>
    ensures answer { result ≡ record_as (meets file r) r room.old }
    ensures left { room.new ≡ record_room (meets file r) r room.old }
{
    if !rules::meets(file, r) {
        return Err(NotWritten::BadRecord);
    }
    text::lay_record(r, room)
}
