// FIPS 197's two substitution tables (figures 7 and 14), each a constant array of 256 numbers. That they are what the
// standard's rule gives is shown over the whole of each table (proofs/Rule.antt). And two tables of words for the columns of
// 5.1.3 and 5.3.3, whose definition is their rule.
#![tactic(auto)]

ghost use Rattle.std.specs.Prelude.{◌≡◌};
ghost use Rattle.sbox.specs.Tables.{sbox, inv_sbox};
ghost use Rattle.sbox.specs.Words.{mixing_table, unmixing_table};

mod figure14;
mod figure7;
mod mix_table;
mod unmix_table;

// The S-box, whole: a caller loads it once and lends it on.
pub fn forward() -> [u8; 256]
    ensures { result ≡ sbox }
{
    figure7::SBOX
}

// The inverse S-box, whole.
pub fn backward() -> [u8; 256]
    ensures { result ≡ inv_sbox }
{
    figure14::INV_SBOX
}

// What each byte brings to a column that is substituted and mixed.
pub fn mixing() -> [u32; 256]
    ensures { result ≡ mixing_table }
{
    mix_table::MIXING
}

// What each byte brings to a column that is unmixed.
pub fn unmixing() -> [u32; 256]
    ensures { result ≡ unmixing_table }
{
    unmix_table::UNMIXING
}
