// Access and mode (8.2.3, Tables 6 to 12).
ghost use Rattle.std.specs.Prelude.{◌≡◌, [], ◌∷◌};
ghost use Rattle.base.specs.Decide.{pick};
ghost use Rattle.access.specs.declared.Grant.TheVariants.{Unasked, Denied};
ghost use Rattle.access.specs.Access.{condition_of, first_with, all_never, granted, read_grant, write_grant, grant_for, file_mode, under_key, mode_for, decided};

use crate::{Decision, Grant, Right};
use fields::Head;
use messaging::Mode;
use order::Name;
use state::Live;

// The condition of a right.
#[tactic(auto, unfolding(crate::specs::Access::condition_of))]
fn condition(right: Right, h: Head) -> u8
    ensures { result ≡ condition_of right h }
{
    match right {
        Right::Read => h.read,
        Right::Write => h.write,
        Right::ReadWrite => h.read_write,
        Right::Change => h.change,
        Right::SdmMetaRead => h.sdm_meta_read,
        Right::SdmFileRead => h.sdm_file_read,
        Right::SdmCtrRet => h.sdm_ctr_ret,
    }
}

// The first of these rights whose condition is c.
#[tactic(auto, unfolding(crate::specs::Access::first_with))]
fn first_with(c: u8, asked: &[Right], h: Head) -> Option<Right>
    ensures { result ≡ first_with c asked.now h }
{
    for right in asked {
        if condition(*right, h) == c {
            return Some(*right);
        }
    }
    None
}

// Whether every condition concerned is F, SDMFileRead too.
#[tactic(auto, unfolding(crate::specs::Access::all_never))]
fn all_never(asked: &[Right], h: Head, file: u8) -> bool
    ensures { result ≡ all_never asked.now h file }
{
    for right in asked {
        if condition(*right, h) != 15 {
            return false;
        }
    }
    file == 15
}

// In session what the key grants; without one SDMFileRead 0 to 4 is a tap; failing that, what E grants.
#[tactic(auto, using(crate::proofs::Rights::first_is), unfolding(crate::specs::Access::granted))]
fn granted(l: Live, h: Head, asked: &[Right], file: u8) -> Grant
    ensures { result ≡ granted l h asked.now file }
{
    if l.on {
        if let Some(right) = first_with(l.key, asked, h) {
            return Grant::ByKey(right);
        }
    } else if file <= 4 {
        return Grant::ByTap;
    }
    match first_with(14, asked, h) {
        Some(right) => Grant::Free(right),
        None if all_never(asked, h, file) => Grant::Never,
        None => Grant::Denied,
    }
}

// A read looks at Read and ReadWrite, and with SDM on at SDMFileRead.
#[tactic(auto, unfolding(crate::specs::Access::read_grant))]
fn read_grant(l: Live, h: Head) -> Grant
    ensures { result ≡ read_grant l h }
{
    let file = if h.sdm { h.sdm_file_read } else { 15 };
    granted(l, h, &[Right::Read, Right::ReadWrite], file)
}

// A write looks at Write and ReadWrite.
#[tactic(auto, unfolding(crate::specs::Access::write_grant))]
fn write_grant(l: Live, h: Head) -> Grant
    ensures { result ≡ write_grant l h }
{
    granted(l, h, &[Right::Write, Right::ReadWrite], 15)
}

// A session that serves, without any of the rights.
fn in_session(serves: bool) -> Grant
    ensures { result ≡ pick serves Unasked Denied }
{
    if serves {
        Grant::Unasked
    } else {
        Grant::Denied
    }
}

// How each command is granted.
#[tactic(auto, unfolding(crate::specs::Access::grant_for, crate::specs::Access::change_grant, crate::specs::Access::counter_grant))]
fn grant_for(name: Name, l: Live, h: Head) -> Grant
    ensures { result ≡ grant_for name l h }
{
    match name {
        Name::ChangeKey => in_session(l.on && l.key == 0),
        Name::GetCardUid => in_session(l.on),
        Name::ChangeFileSettings => granted(l, h, &[Right::Change], 15),
        Name::GetFileCounters if !h.sdm => Grant::Never,
        Name::GetFileCounters => granted(l, h, &[Right::SdmCtrRet], 15),
        Name::ReadData | Name::IsoReadBinary => read_grant(l, h),
        Name::WriteData | Name::IsoUpdateBinary => write_grant(l, h),
        Name::AuthenticateFirst
        | Name::AuthenticateNonFirst
        | Name::PartTwo
        | Name::GetKeyVersion
        | Name::GetFileSettings
        | Name::IsoSelectFile => Grant::Unasked,
    }
}

#[tactic(auto, unfolding(crate::specs::Access::file_mode, messaging::specs::Protect::mode_number))]
fn file_mode(m: u8) -> Mode
    ensures { result ≡ file_mode m }
{
    match m {
        1 => Mode::Mac,
        3 => Mode::Full,
        _ => Mode::Plain,
    }
}

// Under a key the given mode, else Plain.
#[tactic(auto, unfolding(crate::specs::Access::under_key))]
fn under_key(grant: Grant, m: Mode) -> Mode
    ensures { result ≡ under_key grant m }
{
    match grant {
        Grant::ByKey(_) => m,
        _ => Mode::Plain,
    }
}

// The mode of each command, granted so.
#[tactic(auto, unfolding(crate::specs::Access::mode_for))]
fn mode_for(name: Name, grant: Grant, live: bool, m: u8) -> Mode
    ensures { result ≡ mode_for name grant live m }
{
    match name {
        Name::ChangeKey | Name::GetCardUid => Mode::Full,
        Name::GetKeyVersion | Name::GetFileSettings => if live { Mode::Mac } else { Mode::Plain },
        Name::ChangeFileSettings | Name::GetFileCounters => under_key(grant, Mode::Full),
        Name::ReadData | Name::WriteData | Name::IsoReadBinary | Name::IsoUpdateBinary => under_key(
            grant,
            file_mode(m),
        ),
        Name::AuthenticateFirst
        | Name::AuthenticateNonFirst
        | Name::PartTwo
        | Name::IsoSelectFile => Mode::Plain,
    }
}

// What a command may do to a file with these settings, in this session or none.
#[tactic(auto, unfolding(crate::specs::Access::decided, crate::specs::Access::reads))]
pub fn decide(name: Name, l: Live, h: Head) -> Decision
    ensures { result ≡ decided name l h }
{
    let grant = grant_for(name, l, h);
    let reads = matches!(name, Name::ReadData | Name::IsoReadBinary);
    Decision {
        grant,
        mode: mode_for(name, grant, l.on, h.mode),
        tap: reads && h.sdm && !l.on,
    }
}
