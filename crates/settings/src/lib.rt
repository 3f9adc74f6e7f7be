// Settings strings (Tables 69 and 73) judged, and good ones read, without any cryptography.
#![tactic(auto)]

ghost use Rattle.std.specs.Prelude.{◌≡◌};
ghost use Rattle.statuses.specs.Words.{status_word as word_of};
ghost use Rattle.settings.specs.declared.Fault.TheVariants.{String, File};
ghost use Rattle.settings.specs.Filing.{by_fault, file_fault_word, file_judged, filed_word, file_status};
ghost use Rattle.settings.specs.Answers.{status_word, fault_word, fault_of, verdict_of, verdict_word, judged, seen, read_as, told_word};

use rules::Broken;
use spans::Reading;

// 917E and 919E of Table 71.
#[derive(Clone, Copy, Debug, PartialEq, Eq)]
pub enum Status {
    LengthError,
    ParameterError,
}

// What is wrong with a file byte: over 31, or not 1 to 3.
#[derive(Clone, Copy, Debug, PartialEq, Eq)]
pub enum FileFault {
    OverThirtyOne,
    NoSuchFile,
}

// Why a string is refused for a file: for itself, or for the file byte, which is judged first.
#[derive(Clone, Copy, Debug, PartialEq, Eq)]
pub enum Fault {
    String(Status),
    File(FileFault),
}

// The verdict on a string, and what it means: a bad one has a meaning too, so it stands beside the verdict.
#[derive(Clone, Copy, Debug, PartialEq, Eq)]
pub struct Seen {
    pub verdict: Result<(), Fault>,
    pub reading: Reading,
}

impl From<Status> for u16 {
    ghost from_gives = { λ status word. word ≡ status_word status };

    #[tactic(auto, unfolding(crate::specs::Answers::status_word))]
    fn from(status: Status) -> u16 {
        match status {
            Status::LengthError => 0x917E,
            Status::ParameterError => 0x919E,
        }
    }
}

impl From<FileFault> for u16 {
    ghost from_gives = { λ fault word. word ≡ file_fault_word fault };

    fn from(fault: FileFault) -> u16 {
        match fault {
            FileFault::OverThirtyOne => 0x919E,
            FileFault::NoSuchFile => 0x91F0,
        }
    }
}

impl From<Fault> for u16 {
    ghost from_gives = { λ fault word. word ≡ fault_word fault };

    #[tactic(auto, unfolding(crate::specs::Answers::fault_word))]
    fn from(fault: Fault) -> u16 {
        match fault {
            Fault::String(reason) => reason.into(),
            Fault::File(reason) => reason.into(),
        }
    }
}

impl From<Fault> for statuses::Status {
    ghost from_gives = { λ fault status. word_of status ≡ fault_word fault };

    #[tactic(auto, unfolding(crate::specs::Answers::fault_word, crate::specs::Answers::status_word))]
    fn from(fault: Fault) -> statuses::Status {
        match fault {
            Fault::String(Status::LengthError) => statuses::Status::LengthError,
            Fault::String(Status::ParameterError) => statuses::Status::ParameterError,
            Fault::File(FileFault::OverThirtyOne) => statuses::Status::ParameterError,
            Fault::File(FileFault::NoSuchFile) => statuses::Status::FileNotFound,
        }
    }
}

impl From<Status> for Fault {
    ghost from_gives = { λ status fault. fault ≡ String status };

    fn from(status: Status) -> Fault {
        Fault::String(status)
    }
}

impl From<FileFault> for Fault {
    ghost from_gives = { λ file fault. fault ≡ File file };

    fn from(file: FileFault) -> Fault {
        Fault::File(file)
    }
}

impl From<Broken> for Fault {
    ghost from_gives = { λ broken fault. fault ≡ fault_of broken };

    fn from(broken: Broken) -> Fault {
        match broken {
            Broken::Missing(_) => Status::LengthError.into(),
            Broken::Wrong(_) => Status::ParameterError.into(),
        }
    }
}

// Whether there is a file of a number.
#[tactic(auto, unfolding(crate::specs::Filing::file_judged, crate::specs::Filing::filed_word, crate::specs::Filing::file_status))]
pub fn judge_file(file: u8) -> Result<(), FileFault>
    ensures told { result ≡ file_judged file }
    ensures number { filed_word result ≡ file_status file }
{
    match file {
        1..=3 => Ok(()),
        0 | 4..=31 => Err(FileFault::NoSuchFile),
        _ => Err(FileFault::OverThirtyOne),
    }
}

// The verdict by the file byte, which is judged first, and by the first rule that is broken.
#[tactic(auto, unfolding(crate::specs::Filing::file_judged, crate::specs::Answers::verdict_of))]
fn verdict_for(file: u8, found: Result<(), Broken>) -> Result<(), Fault>
    ensures { result ≡ by_fault file (λ fault. Err (File fault)) (verdict_of found) }
{
    judge_file(file)?;
    found?;
    Ok(())
}

// Whether a string is good for a file, or its fault, and what it means: it is read once.
#[tactic(auto, unfolding(crate::specs::Answers::seen, crate::specs::Answers::judged, rules::specs::Rules::examined))]
pub fn see(file: u8, s: &[u8]) -> Seen
    ensures { result ≡ seen file s.now }
{
    let examined = rules::examine(file, s);
    Seen {
        verdict: verdict_for(file, examined.finding),
        reading: examined.reading,
    }
}

// Whether a string is good for a file, or its fault; the file byte is judged before the string is looked at.
#[tactic(auto, unfolding(crate::specs::Answers::seen))]
pub fn judge(file: u8, s: &[u8]) -> Result<(), Fault>
    ensures { result ≡ judged file s.now }
{
    see(file, s).verdict
}

// What a good string means, or the fault of a bad one.
#[tactic(auto, unfolding(crate::specs::Answers::seen, crate::specs::Answers::read_as, crate::specs::Answers::told_word, crate::specs::Answers::verdict_word))]
pub fn read(file: u8, s: &[u8]) -> Result<Reading, Fault>
    ensures told { result ≡ read_as (judged file s.now) s.now }
    ensures number { told_word result ≡ verdict_word (judged file s.now) }
{
    let seen = see(file, s);
    seen.verdict?;
    Ok(seen.reading)
}
