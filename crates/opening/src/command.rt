// Opening a command (9.1.8 to 9.1.10; 01, step 8).
ghost use Rattle.std.specs.Prelude.{◌≡◌, true, ◌+◌, ◌-◌, ◌%◌, ◌≤◌, Err, length, take, drop};
ghost use Rattle.base.specs.Bytes.{same};
ghost use Rattle.padding.specs.Padding.{unpad, blocks};
ghost use Rattle.messaging.specs.Protect.{message_mac, message_mac_cost, command_iv, mac_length, content, text_of, plain, part_cost};
ghost use Rattle.messaging.specs.declared.Mode.TheVariants.{Full};
ghost use Rattle.opening.specs.Command.{part_right, length_right, checked, checked_cost, opening, opening_cost, opened_for, OpensInto, Opens};

use crate::{NotOpened, Opened};
use messaging::{Mode, Session, command_vector, message_mac};

// How many bytes of MAC end a command.
fn mac_length(m: Mode) -> usize
    ensures { result ≡ mac_length m }
{
    match m {
        Mode::Plain => 0,
        Mode::Mac | Mode::Full => 8,
    }
}

// Whether a data part may be n bytes long.
#[tactic(auto, unfolding(crate::specs::Command::part_right, padding::specs::Padding::blocks), using(crate::proofs::Opening::part_none))]
fn part_right(m: Mode, there: bool, n: usize) -> bool
    ensures { result ≡ part_right m there n }
{
    if there {
        m != Mode::Full || (n % 16 == 0 && 16 <= n)
    } else {
        n == 0
    }
}

// Whether a command of n bytes with a header of h has the length for its mode.
#[tactic(auto, unfolding(crate::specs::Command::length_right))]
fn length_right(m: Mode, there: bool, h: usize, n: usize) -> bool
    ensures { result ≡ length_right m there h n }
{
    let t = mac_length(m);
    t <= n && h <= n - t && part_right(m, there, n - t - h)
}

// Whether a command ends with its MAC, and how many blocks were computed for it.
#[derive(Clone, Copy)]
struct Checked {
    right: bool,
    cost: usize,
}

fn mac_right(s: Session, cmd: u8, x: &[u8]) -> Checked
    requires { (8 ≤ length x.now) × (length x.now ≤ 255) }
    ensures right { result.right ≡ same (drop (length x.now - 8) x.now) (message_mac s cmd (take (length x.now - 8) x.now)) }
    ensures cost { result.cost ≡ message_mac_cost (length x.now - 8) }
{
    let (body, tag) = x.split_at(x.len() - 8);
    let m = message_mac(s, cmd, body);
    Checked {
        right: base::alike(tag, &m.bytes),
        cost: m.cost,
    }
}

// Refused, for so many blocks.
fn refused(why: NotOpened, cost: usize) -> Opened
    ensures { result ≡ opened_for (Err why) cost }
{
    Opened {
        data: Err(why),
        cost,
    }
}

// Plain data at the front of a room, for so many blocks.
fn give(part: &[u8], room: &mut [u8], cost: usize) -> Opened
    requires { length part.now ≤ length room.old }
    ensures { OpensInto (plain part.now) cost room.old result room.new }
{
    room[..part.len()].copy_from_slice(part);
    Opened {
        data: Ok(part.len()),
        cost,
    }
}

// A padded text without its padding at the front of a room, for so many blocks.
fn give_text(s: &[u8], room: &mut [u8], cost: usize) -> Opened
    requires { length s.now ≤ length room.old }
    ensures { OpensInto (text_of s.now (unpad s.now)) cost room.old result room.new }
{
    match padding::unpad(s) {
        Some(n) => give(&s[..n], room, cost),
        None => refused(NotOpened::WrongPadding, cost),
    }
}

// The text of an encrypted part at the front of a room.
fn give_hidden(s: Session, part: &[u8], room: &mut [u8]) -> Opened
    requires { (length part.now ≤ 255) × (length part.now ≤ length room.old) × (blocks (length part.now) ≡ true) }
    ensures { OpensInto (content Full s (command_iv s) true part.now) (part_cost Full true (length part.now)) room.old result room.new }
{
    let mut text = [0; 256];
    let text = &mut text[..part.len()];
    text.copy_from_slice(part);
    let w = key_expansion::expand(s.enc);
    let v = command_vector(&w, s);
    let blocks = cbc::cbc_decrypt(&w, v.bytes, text).unwrap();
    give_text(text, room, v.cost + blocks)
}

// Opens a command in MAC or in Full, of the right length.
fn open_signed(
    s: Session,
    m: Mode,
    cmd: u8,
    x: &[u8],
    h: usize,
    there: bool,
    room: &mut [u8],
) -> Opened
    requires signed { mac_length m ≡ 8 }
    requires within { (h + 8 ≤ length x.now) × (length x.now ≤ 255) × (length x.now ≤ length room.old) }
    requires part { part_right m there (length x.now - 8 - h) ≡ true }
    ensures { OpensInto (checked m s cmd x.now h there) (checked_cost m s cmd x.now h there) room.old result room.new }
{
    let mac = mac_right(s, cmd, x);
    if !mac.right {
        return refused(NotOpened::WrongMac, mac.cost);
    }
    let part = &x[h..x.len() - 8];
    if there && m == Mode::Full {
        let opened = give_hidden(s, part, room);
        return Opened {
            cost: mac.cost + opened.cost,
            ..opened
        };
    }
    give(part, room, mac.cost)
}

// Opens a command into a lent room: its bytes are header, data part and MAC.
pub fn open(
    s: Session,
    m: Mode,
    cmd: u8,
    x: &[u8],
    h: usize,
    there: bool,
    room: &mut [u8],
) -> Opened
    ensures { Opens x.now (opening s m cmd x.now h there) (opening_cost s m cmd x.now h there) room.old result room.new }
{
    if 255 < x.len() {
        return refused(NotOpened::TooLong, 0);
    }
    if room.len() < x.len() {
        return refused(NotOpened::NoRoom, 0);
    }
    if !length_right(m, there, h, x.len()) {
        return refused(NotOpened::WrongLength, 0);
    }
    match m {
        Mode::Plain => give(&x[h..], room, 0),
        Mode::Mac | Mode::Full => open_signed(s, m, cmd, x, h, there, room),
    }
}
