// ISO commands (CLA 00): their form, and the checks in front of each.
ghost use Rattle.std.specs.Prelude.{◌≡◌};
ghost use Rattle.statuses.specs.Words.{word_or_0};
ghost use Rattle.order.specs.Order.{iso_form, lc_of, has_le, fits, on_file_status, iso_status};

use statuses::Status;

// 4 bytes, 5 bytes (Le), 5 + Lc or 6 + Lc with Lc 1 to 255.
#[tactic(auto, unfolding(crate::specs::Order::iso_form))]
pub fn form(c: &[u8]) -> bool
    ensures { result ≡ iso_form c.now }
{
    let n = c.len();
    let lc = usize::from(base::at(c, 4));
    n <= 5 || 1 <= lc && (n == 5 + lc || n == 6 + lc)
}

// How much data there is.
#[tactic(auto, unfolding(crate::specs::Order::lc_of))]
pub fn lc_of(c: &[u8]) -> u8
    ensures { result ≡ lc_of c.now }
{
    if c.len() <= 5 { 0 } else { base::at(c, 4) }
}

// Whether there is Le.
#[tactic(auto, unfolding(crate::specs::Order::has_le))]
fn has_le(c: &[u8]) -> bool
    ensures { result ≡ has_le c.now }
{
    let n = c.len();
    if n <= 5 {
        n == 5
    } else {
        n == 6 + usize::from(base::at(c, 4))
    }
}

// A read needs Le and no data, an update data and no Le.
#[tactic(auto, unfolding(crate::specs::Order::fits))]
fn fits(reads: bool, c: &[u8]) -> bool
    ensures { result ≡ fits reads c.now }
{
    let lc = lc_of(c);
    if reads {
        has_le(c) && lc == 0
    } else {
        !has_le(c) && 1 <= lc
    }
}

// Reads and updates.
#[tactic(auto, unfolding(crate::specs::Order::on_file_status))]
fn on_file_status(c: &[u8], file: u8) -> Result<(), Status>
    ensures { word_or_0 result ≡ on_file_status c.now file }
{
    if 128 <= base::at(c, 2) {
        return Err(Status::IsoWrongP1P2);
    }
    if !fits(base::at(c, 1) == 0xB0, c) {
        return Err(Status::IsoWrongLength);
    }
    if file == 0 {
        return Err(Status::IsoConditions);
    }
    Ok(())
}

// Step 4 and what follows it.
#[tactic(auto, unfolding(crate::specs::Order::iso_status))]
pub fn iso_status(c: &[u8], pending: bool, file: u8) -> Result<(), Status>
    ensures { word_or_0 result ≡ iso_status c.now pending file }
{
    if pending {
        return Err(Status::IsoConditions);
    }
    if base::at(c, 1) == 0xA4 {
        return Ok(());
    }
    on_file_status(c, file)
}
