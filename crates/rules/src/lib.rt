// The rules for a settings string in 01's order: the first that does not hold answers. The same rules of a record.
#![tactic(auto)]

ghost use Rattle.std.specs.Prelude.{◌≡◌};
ghost use Rattle.fields.specs.Fields.{head_of, read_of};
ghost use Rattle.rules.specs.Rules.{found, sdm_rules, rest_rules, rules, examined};
ghost use Rattle.rules.specs.Numbers.{finding_number, first_number};

mod checks;
mod findings;
mod fits;
mod records;

use fields::Settings;
pub use findings::Broken;
use findings::{right, there};
pub use records::record_meets as meets;
use spans::Reading;

// The parts that 01 calls missing, the last for a whole length that is wrong.
#[derive(Clone, Copy, Debug, PartialEq, Eq)]
pub enum Part {
    OptionByte,
    RightsBytes,
    SdmOptionsByte,
    SdmRightsBytes,
    Whole,
}

// The tests of 01, in its order.
#[derive(Clone, Copy, Debug, PartialEq, Eq)]
pub enum Check {
    OptionBits,
    SdmFile,
    Rights,
    SdmOptionsBits,
    SdmRights,
    MetaMirrors,
    MetaOff,
    EncNeeds,
    EncSize,
    UidInside,
    CounterInside,
    PiccInside,
    EncInside,
    MacInside,
    Shared,
    MacInput,
    EncBetween,
}

// The first rule that a string breaks, and what the string means, good or not.
#[derive(Clone, Copy, Debug, PartialEq, Eq)]
pub struct Examined {
    pub finding: Result<(), Broken>,
    pub reading: Reading,
}

// With SDM on: options, SDM rights, the whole length, positions. r is what the string means.
#[tactic(auto, unfolding(crate::specs::Rules::found, crate::specs::Rules::sdm_rules, fields::specs::Fields::read_of))]
fn sdm_broken(s: &[u8], r: Settings) -> Result<(), Broken>
    requires { r ≡ read_of s.now }
    ensures { result ≡ found (sdm_rules s.now (head_of s.now)) }
{
    let h = r.head;
    there(Part::SdmOptionsByte, 4 <= s.len())?;
    right(
        Check::SdmOptionsBits,
        checks::sdm_options_bits(base::at(s, 3)),
    )?;
    there(Part::SdmRightsBytes, 6 <= s.len())?;
    right(Check::SdmRights, checks::sdm_rights(h))?;
    right(Check::MetaMirrors, checks::meta_mirrors(h))?;
    right(Check::MetaOff, checks::meta_off(h))?;
    right(Check::EncNeeds, checks::enc_needs(h))?;
    there(Part::Whole, s.len() == fields::size_of(h))?;
    findings::positions(r)
}

// What follows the rights. r is what the string means.
#[tactic(auto, unfolding(crate::specs::Rules::found, crate::specs::Rules::rest_rules, fields::specs::Fields::read_of, fields::specs::Fields::head_of))]
fn rest_broken(s: &[u8], r: Settings) -> Result<(), Broken>
    requires { r ≡ read_of s.now }
    ensures { result ≡ found (rest_rules s.now (head_of s.now)) }
{
    if r.head.sdm {
        sdm_broken(s, r)
    } else {
        there(Part::Whole, s.len() == fields::size_of(r.head))
    }
}

// The first rule that a string breaks. r is what the string means.
#[tactic(auto, unfolding(crate::specs::Rules::found, crate::specs::Rules::rules, fields::specs::Fields::read_of))]
fn first_broken(file: u8, s: &[u8], r: Settings) -> Result<(), Broken>
    requires { r ≡ read_of s.now }
    ensures { result ≡ found (rules file s.now) }
{
    let h = r.head;
    there(Part::OptionByte, 1 <= s.len())?;
    right(Check::OptionBits, checks::option_bits(base::at(s, 0)))?;
    right(Check::SdmFile, checks::sdm_file(file, h))?;
    there(Part::RightsBytes, 3 <= s.len())?;
    right(Check::Rights, checks::rights_kept(h))?;
    rest_broken(s, r)
}

// The first rule that a string breaks, and what it means: it is read once.
#[tactic(auto, unfolding(crate::specs::Rules::examined, spans::specs::Spans::reading_of), using(crate::proofs::Found::found_number))]
pub fn examine(file: u8, s: &[u8]) -> Examined
    ensures told { result ≡ examined file s.now }
    ensures number { finding_number result.finding ≡ first_number (rules file s.now) }
{
    let reading = spans::meaning(s);
    Examined {
        finding: first_broken(file, s, reading.settings),
        reading,
    }
}

// The first rule that a string breaks.
#[tactic(auto, unfolding(crate::specs::Rules::examined))]
pub fn broken(file: u8, s: &[u8]) -> Result<(), Broken>
    ensures told { result ≡ found (rules file s.now) }
    ensures number { finding_number result ≡ first_number (rules file s.now) }
{
    examine(file, s).finding
}
