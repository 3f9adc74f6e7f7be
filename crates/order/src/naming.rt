// Which command a class and an INS are.
ghost use Rattle.std.specs.Prelude.{◌≡◌};
ghost use Rattle.order.specs.Names.{named};

use super::Name;

// CLA 90.
#[tactic(auto, unfolding(crate::specs::Names::named, crate::specs::Names::among, crate::specs::Names::class_of, crate::specs::Names::ins_of))]
pub fn wrapped_name(ins: u8) -> Option<Name>
    ensures { result ≡ named 0x90 ins }
{
    match ins {
        0x71 => Some(Name::AuthenticateFirst),
        0x77 => Some(Name::AuthenticateNonFirst),
        0xAF => Some(Name::PartTwo),
        0xC4 => Some(Name::ChangeKey),
        0x64 => Some(Name::GetKeyVersion),
        0x51 => Some(Name::GetCardUid),
        0xF5 => Some(Name::GetFileSettings),
        0x5F => Some(Name::ChangeFileSettings),
        0xF6 => Some(Name::GetFileCounters),
        0xAD => Some(Name::ReadData),
        0x8D => Some(Name::WriteData),
        _ => None,
    }
}

// CLA 00.
#[tactic(auto, unfolding(crate::specs::Names::named, crate::specs::Names::among, crate::specs::Names::class_of, crate::specs::Names::ins_of))]
pub fn iso_name(ins: u8) -> Option<Name>
    ensures { result ≡ named 0x00 ins }
{
    match ins {
        0xA4 => Some(Name::IsoSelectFile),
        0xB0 => Some(Name::IsoReadBinary),
        0xD6 => Some(Name::IsoUpdateBinary),
        _ => None,
    }
}
