// The order of checks of wrapped commands (CLA 90), steps 2 to 5, by their bytes.
ghost use Rattle.std.specs.Prelude.{◌≡◌, [], ◌∷◌};
ghost use Rattle.base.specs.Decide.{one_of};
ghost use Rattle.settings.specs.Filing.{file_status};
ghost use Rattle.statuses.specs.Words.{word_or_0};
ghost use Rattle.order.specs.Order.{form_right, command_data, header_length, has_data, names_key, key_status, byte_status, front_status, order_status, wrapped_status};

use statuses::Status;

// 5 bytes, or 6 + Lc with Lc 1 to 255, and the last byte 00.
#[tactic(auto, unfolding(crate::specs::Order::form_right))]
pub fn form_right(c: &[u8]) -> bool
    ensures { result ≡ form_right c.now }
{
    let n = c.len();
    let lc = usize::from(base::at(c, 4));
    5 <= n && base::at(c, n - 1) == 0 && (n == 5 || 1 <= lc && n == 6 + lc)
}

// The data of a wrapped command.
#[tactic(auto, unfolding(crate::specs::Order::command_data))]
pub fn command_data(c: &[u8]) -> &[u8]
    ensures { result.now ≡ command_data c.now }
{
    let n = c.len();
    if n <= 5 { &c[..0] } else { &c[5..n - 1] }
}

// Steps 3 and 4.
#[tactic(auto, unfolding(crate::specs::Order::order_status))]
fn order_status(ins: u8, p1: u8, p2: u8, pending: bool) -> Result<(), Status>
    ensures { word_or_0 result ≡ order_status ins p1 p2 pending }
{
    if p1 != 0 || p2 != 0 {
        return Err(Status::ParameterError);
    }
    match (pending, ins == 0xAF) {
        (true, false) => Err(Status::CommandAborted),
        (false, true) => Err(Status::IllegalCommandCode),
        _ => Ok(()),
    }
}

// How many bytes a header has.
#[tactic(auto, unfolding(crate::specs::Order::header_length, base::specs::Decide::one_of))]
pub fn header_length(ins: u8) -> usize
    ensures { result ≡ header_length ins }
{
    match ins {
        0x51 | 0x71 | 0x77 | 0xAF => 0,
        0x8D | 0xAD => 7,
        _ => 1,
    }
}

// Whether a command has a data part.
#[tactic(auto, unfolding(crate::specs::Order::has_data, base::specs::Decide::one_of))]
pub fn has_data(ins: u8) -> bool
    ensures { result ≡ has_data ins }
{
    matches!(ins, 0x5F | 0x8D | 0xC4)
}

// Whether a command names a key.
#[tactic(auto, unfolding(crate::specs::Order::names_key, base::specs::Decide::one_of))]
pub fn names_key(ins: u8) -> bool
    ensures { result ≡ names_key ins }
{
    matches!(ins, 0x64 | 0xC4)
}

// Whether a command has its own checks in place of step 5.
#[tactic(auto, unfolding(base::specs::Decide::one_of))]
fn checks_itself(ins: u8) -> bool
    ensures { result ≡ one_of ins (0x71 ∷ 0x77 ∷ 0xAF ∷ []) }
{
    matches!(ins, 0x71 | 0x77 | 0xAF)
}

// A file byte: over 31 919E, not 1 to 3 91F0.
#[tactic(auto, unfolding(settings::specs::Filing::file_status))]
fn file_status(n: u8) -> Result<(), Status>
    ensures { word_or_0 result ≡ file_status n }
{
    match n {
        1..=3 => Ok(()),
        0..=31 => Err(Status::FileNotFound),
        _ => Err(Status::ParameterError),
    }
}

// A key byte: over 63 919E, over 4 9140.
#[tactic(auto, unfolding(crate::specs::Order::key_status))]
pub fn key_status(k: u8) -> Result<(), Status>
    ensures { word_or_0 result ≡ key_status k }
{
    match k {
        0..=4 => Ok(()),
        5..=63 => Err(Status::NoSuchKey),
        _ => Err(Status::ParameterError),
    }
}

#[tactic(auto, unfolding(crate::specs::Order::byte_status))]
fn byte_status(ins: u8, b: u8) -> Result<(), Status>
    ensures { word_or_0 result ≡ byte_status ins b }
{
    match ins {
        0x51 => Ok(()),
        _ if names_key(ins) => key_status(b),
        _ => file_status(b),
    }
}

// Step 5.
#[tactic(auto, unfolding(crate::specs::Order::front_status))]
fn front_status(ins: u8, x: &[u8], application: bool) -> Result<(), Status>
    ensures { word_or_0 result ≡ front_status ins x.now application }
{
    if checks_itself(ins) {
        return Ok(());
    }
    if x.len() < header_length(ins) {
        return Err(Status::LengthError);
    }
    if !application {
        return Err(Status::PermissionDenied);
    }
    byte_status(ins, base::at(x, 0))
}

// Steps 3 to 5.
#[tactic(auto, unfolding(crate::specs::Order::wrapped_status))]
pub fn wrapped_status(c: &[u8], pending: bool, application: bool) -> Result<(), Status>
    ensures { word_or_0 result ≡ wrapped_status c.now pending application }
{
    let ins = base::at(c, 1);
    order_status(ins, base::at(c, 2), base::at(c, 3), pending)?;
    front_status(ins, command_data(c), application)
}
