// Steps 1 to 5: bytes become a command, or a status.
ghost use Rattle.std.specs.Prelude.{◌≡◌, ◌≤◌, length};
ghost use Rattle.fields.specs.Fields.{three};
ghost use Rattle.order.specs.Commands.{data_start, data_end, wrapped_command, iso_command, wrapped_order, iso_order, ordered, ordered_number, in_words};

use super::{Command, Name, fronts, iso, naming};
use statuses::Status;

// The number in three bytes of a header, low byte first.
#[tactic(auto, unfolding(fields::specs::Fields::three, base::specs::Bytes::number))]
fn three_at(x: &[u8], i: usize) -> usize
    requires { i ≤ 4 }
    ensures { result ≡ three x.now i }
{
    u32::from_le_bytes([base::at(x, i), base::at(x, i + 1), base::at(x, i + 2), 0]) as usize
}

// Where n bytes of data begin and end.
fn data_place(n: usize) -> (usize, usize)
    requires { n ≤ 256 }
    ensures start { result.0 ≡ data_start n }
    ensures end { result.1 ≡ data_end n }
{
    if n == 0 { (0, 0) } else { (5, 5 + n) }
}

// A wrapped command in the right form.
#[tactic(auto, unfolding(crate::specs::Commands::wrapped_command, crate::specs::Order::command_data))]
fn wrapped_command(name: Name, c: &[u8]) -> Command
    requires { length c.now ≤ 261 }
    ensures { result ≡ wrapped_command name c.now }
{
    let ins = base::at(c, 1);
    let x = fronts::command_data(c);
    let header = fronts::header_length(ins);
    let first = if header == 0 { 0 } else { base::at(x, 0) };
    let (key, file) = if fronts::names_key(ins) {
        (first, 0)
    } else {
        (0, first)
    };
    let (offset, count) = if header == 7 {
        (three_at(x, 1), three_at(x, 4))
    } else {
        (0, 0)
    };
    let (start, end) = data_place(x.len());
    Command {
        name,
        class: 0x90,
        ins,
        header,
        parted: fronts::has_data(ins),
        key,
        file,
        p1: 0,
        p2: 0,
        offset,
        count,
        start,
        end,
    }
}

// An ISO command in the right form, with the selected file.
#[tactic(auto, unfolding(crate::specs::Commands::iso_command))]
fn iso_command(name: Name, c: &[u8], file: u8) -> Command
    ensures { result ≡ iso_command name c.now file }
{
    let p1 = base::at(c, 2);
    let p2 = base::at(c, 3);
    let n = iso::lc_of(c);
    let (start, end) = data_place(usize::from(n));
    Command {
        name,
        class: 0x00,
        ins: base::at(c, 1),
        header: 0,
        parted: 1 <= n,
        key: 0,
        file,
        p1,
        p2,
        offset: usize::from(u16::from_be_bytes([p1, p2])),
        count: usize::from(base::at(c, 4)),
        start,
        end,
    }
}

// CLA 90.
#[tactic(auto, unfolding(crate::specs::Commands::wrapped_order, crate::specs::Commands::by_status))]
fn wrapped_order(c: &[u8], pending: bool, application: bool) -> Result<Command, Status>
    requires { length c.now ≤ 261 }
    ensures { in_words result ≡ wrapped_order c.now pending application }
{
    if !fronts::form_right(c) {
        return Err(Status::LengthError);
    }
    let name = naming::wrapped_name(base::at(c, 1)).ok_or(Status::IllegalCommandCode)?;
    fronts::wrapped_status(c, pending, application)?;
    Ok(wrapped_command(name, c))
}

// CLA 00.
#[tactic(auto, unfolding(crate::specs::Commands::iso_order, crate::specs::Commands::by_status))]
fn iso_order(c: &[u8], pending: bool, file: u8) -> Result<Command, Status>
    ensures { in_words result ≡ iso_order c.now pending file }
{
    if !iso::form(c) {
        return Err(Status::IsoWrongLength);
    }
    let name = naming::iso_name(base::at(c, 1)).ok_or(Status::IsoUnknownInstruction)?;
    iso::iso_status(c, pending, file)?;
    Ok(iso_command(name, c, file))
}

// The command in these bytes, to a tag with a part two pending or not, in the application or not, with a file selected or none
// (0); or the status that refuses it.
#[tactic(auto, unfolding(crate::specs::Commands::ordered))]
pub fn command_in(c: &[u8], pending: bool, application: bool, file: u8) -> Result<Command, Status>
    ensures told { in_words result ≡ ordered c.now pending application file }
    ensures number { ordered_number (in_words result) ≡ ordered_number (ordered c.now pending application file) }
{
    if c.len() < 4 || 261 < c.len() {
        return Err(Status::IsoWrongLength);
    }
    match c[0] {
        0x90 => wrapped_order(c, pending, application),
        0x00 => iso_order(c, pending, file),
        _ => Err(Status::IsoUnknownClass),
    }
}
