// A rule that answers, and those of the positions.
ghost use Rattle.std.specs.Prelude.{◌≡◌};
ghost use Rattle.base.specs.Decide.{pick};
ghost use Rattle.rules.specs.declared.findings.Broken.TheVariants.{Missing, Wrong};
ghost use Rattle.rules.specs.Rules.{found, position_rules};

use super::{Check, Part, checks};
use fields::Settings;

// A rule that a string breaks.
#[derive(Clone, Copy, Debug, PartialEq, Eq)]
pub enum Broken {
    Missing(Part),
    Wrong(Check),
}

// A part that must be there whole.
pub fn there(part: Part, whole: bool) -> Result<(), Broken>
    ensures { result ≡ pick whole (Ok tt) (Err (Missing part)) }
{
    if whole {
        Ok(())
    } else {
        Err(Broken::Missing(part))
    }
}

// A test that must hold.
pub fn right(check: Check, holds: bool) -> Result<(), Broken>
    ensures { result ≡ pick holds (Ok tt) (Err (Wrong check)) }
{
    if holds {
        Ok(())
    } else {
        Err(Broken::Wrong(check))
    }
}

// The rules of the positions.
#[tactic(auto, unfolding(crate::specs::Rules::found, crate::specs::Rules::position_rules, spans::specs::Spans::spans_of, spans::specs::Spans::reading_of))]
pub fn positions(r: Settings) -> Result<(), Broken>
    ensures { result ≡ found (position_rules r) }
{
    let m = spans::reading_of(r);
    right(Check::EncSize, checks::enc_size(r))?;
    right(Check::UidInside, spans::is_inside(m.uid))?;
    right(Check::CounterInside, spans::is_inside(m.counter))?;
    right(Check::PiccInside, spans::is_inside(m.picc))?;
    right(Check::EncInside, spans::is_inside(m.enc))?;
    right(Check::MacInside, spans::is_inside(m.mac))?;
    let apart = spans::all_apart([m.uid, m.counter, m.picc, m.enc, m.mac]);
    right(Check::Shared, apart)?;
    right(Check::MacInput, checks::mac_input(r))?;
    right(Check::EncBetween, checks::enc_between(r))
}
