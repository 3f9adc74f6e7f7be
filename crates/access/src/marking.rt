// What a journal notes of a call, by number.
ghost use Rattle.std.specs.Prelude.{◌≡◌};
ghost use Rattle.access.specs.Marks.{right_number, how_number, granting_right, marks_of};

use crate::{Grant, Marks, Right};

#[tactic(auto, unfolding(crate::specs::Marks::right_number))]
fn right_number(right: Right) -> u8
    ensures { result ≡ right_number right }
{
    match right {
        Right::Read => 1,
        Right::Write => 2,
        Right::ReadWrite => 3,
        Right::Change => 4,
        Right::SdmMetaRead => 5,
        Right::SdmFileRead => 6,
        Right::SdmCtrRet => 7,
    }
}

// How a command is granted, or that it is refused.
#[tactic(auto, unfolding(crate::specs::Marks::how_number))]
fn how_number(grant: Grant) -> u8
    ensures { result ≡ how_number grant }
{
    match grant {
        Grant::ByKey(_) => 1,
        Grant::ByTap => 2,
        Grant::Free(_) => 3,
        Grant::Unasked => 4,
        Grant::Never | Grant::Denied => 5,
    }
}

// The right that grants it; the tap rule is SDMFileRead's.
#[tactic(auto, unfolding(crate::specs::Marks::granting_right))]
fn granting_right(grant: Grant) -> u8
    ensures { result ≡ granting_right grant }
{
    match grant {
        Grant::ByKey(right) | Grant::Free(right) => right_number(right),
        Grant::ByTap => right_number(Right::SdmFileRead),
        Grant::Unasked | Grant::Never | Grant::Denied => 0,
    }
}

// How and under which right; zeros where the decision was never got to.
#[tactic(auto, unfolding(crate::specs::Marks::marks_of))]
pub fn marked(noted: Option<Grant>) -> Marks
    ensures { result ≡ marks_of noted }
{
    match noted {
        Some(grant) => Marks {
            how: how_number(grant),
            right: granting_right(grant),
        },
        None => Marks { how: 0, right: 0 },
    }
}
