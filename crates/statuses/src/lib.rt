// The status words that a reply ends with (Tables 23 and 24).
#![tactic(auto)]

ghost use Rattle.std.specs.Prelude.{◌≡◌};
ghost use Rattle.statuses.specs.Words.{status_word};

// Each status by its name: Table 23's behind 91, then Table 24's, of CLA 00, with Iso before them.
#[derive(Clone, Copy, Debug, PartialEq, Eq)]
pub enum Status {
    OperationOk,
    IllegalCommandCode,
    IntegrityError,
    NoSuchKey,
    LengthError,
    PermissionDenied,
    ParameterError,
    AuthenticationError,
    AdditionalFrame,
    BoundaryError,
    CommandAborted,
    FileNotFound,
    IsoNormal,
    IsoWrongLength,
    IsoSecurity,
    IsoConditions,
    IsoWrongData,
    IsoNotFound,
    IsoWrongP1P2,
    IsoWrongLc,
    // 6C and how much there is.
    WrongLe(u8),
    IsoUnknownInstruction,
    IsoUnknownClass,
}

// The word that a status stands for.
impl From<Status> for u16 {
    ghost from_gives = { λ s n. n ≡ status_word s };

    fn from(status: Status) -> u16 {
        match status {
            Status::OperationOk => 0x9100,
            Status::IllegalCommandCode => 0x911C,
            Status::IntegrityError => 0x911E,
            Status::NoSuchKey => 0x9140,
            Status::LengthError => 0x917E,
            Status::PermissionDenied => 0x919D,
            Status::ParameterError => 0x919E,
            Status::AuthenticationError => 0x91AE,
            Status::AdditionalFrame => 0x91AF,
            Status::BoundaryError => 0x91BE,
            Status::CommandAborted => 0x91CA,
            Status::FileNotFound => 0x91F0,
            Status::IsoNormal => 0x9000,
            Status::IsoWrongLength => 0x6700,
            Status::IsoSecurity => 0x6982,
            Status::IsoConditions => 0x6985,
            Status::IsoWrongData => 0x6A80,
            Status::IsoNotFound => 0x6A82,
            Status::IsoWrongP1P2 => 0x6A86,
            Status::IsoWrongLc => 0x6A87,
            Status::WrongLe(there) => 0x6C00 + u16::from(there),
            Status::IsoUnknownInstruction => 0x6D00,
            Status::IsoUnknownClass => 0x6E00,
        }
    }
}
