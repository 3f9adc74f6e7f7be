// Whether the numbers of a record fit their fields.
ghost use Rattle.std.specs.Prelude.{◌≡◌};
ghost use Rattle.fields.specs.Fields.{present, listed};
ghost use Rattle.rules.specs.Rules.{field_fits, fields_fit};

use fields::Settings;

// Whether a present field has three bytes and an absent one is 0.
#[tactic(auto, unfolding(crate::specs::Rules::field_fits))]
fn field_fits(present: bool, v: u32) -> bool
    ensures { result ≡ field_fits present v }
{
    if present { v < 16777216 } else { v == 0 }
}

// Whether every field fits.
fn all_fit(there: [bool; 8], numbers: [u32; 8]) -> bool
    ensures { result ≡ fields_fit there numbers }
{
    for (i, &present) in there.iter().enumerate() {
        if !field_fits(present, numbers[i]) {
            return false;
        }
    }
    true
}

pub fn fields_fit(r: Settings) -> bool
    ensures { result ≡ fields_fit (present r.head) (listed r.places) }
{
    all_fit(fields::present_fields(r.head), fields::in_order(r.places))
}
