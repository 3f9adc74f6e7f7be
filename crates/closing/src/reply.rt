// Closing a reply in the lent room (9.1.8 to 9.1.10).
ghost use Rattle.std.specs.Prelude.{◌≡◌, ◌++◌, ◌+◌, ◌≤◌, length, take};
ghost use Rattle.messaging.specs.Protect.{message_mac, message_mac_cost, reply_iv, sent, part_cost};
ghost use Rattle.messaging.specs.declared.Mode.TheVariants.{Full};
ghost use Rattle.closing.specs.Reply.{filled, hidden_length, closed_length, overlong, Seals, Closes};

use crate::{Closed, NotClosed};
use messaging::{Mode, Session, message_mac, reply_vector};

// How long n bytes are, closed.
#[tactic(auto, unfolding(crate::specs::Reply::closed_length, crate::specs::Reply::hidden_length, padding::specs::Padding::padded_length))]
fn closed_length(m: Mode, n: usize) -> usize
    requires { n ≤ 256 }
    ensures { result ≡ closed_length m n }
{
    match m {
        Mode::Plain => n,
        Mode::Mac => n + 8,
        Mode::Full if n == 0 => 8,
        Mode::Full => n / 16 * 16 + 24,
    }
}

// Whether a reply of n bytes is over 256 bytes with its MAC.
#[tactic(auto, unfolding(crate::specs::Reply::overlong), using(crate::proofs::Closing::closed_long))]
pub fn too_long(m: Mode, n: usize) -> bool
    ensures { result ≡ overlong m n }
{
    256 < n || 256 < closed_length(m, n)
}

// Encrypts the n bytes at the front of a room, padded, and answers how many they are then.
fn hide(s: Session, room: &mut [u8], n: usize) -> Closed
    requires { hidden_length n ≤ length room.old }
    ensures bytes { Seals (sent Full s (reply_iv s) (filled n) (take n room.old)) (hidden_length n) room.old result.length room.new }
    ensures cost { result.cost ≡ part_cost Full (filled n) (hidden_length n) }
{
    if n == 0 {
        return Closed { length: 0, cost: 0 };
    }
    let length = padding::pad(room, n).unwrap();
    let w = key_expansion::expand(s.enc);
    let v = reply_vector(&w, s);
    let blocks = cbc::cbc_encrypt(&w, v.bytes, &mut room[..length]).unwrap();
    Closed {
        length,
        cost: v.cost + blocks,
    }
}

// Puts the MAC behind the n bytes at the front of a room, and answers how many they are then.
fn sign(s: Session, code: u8, room: &mut [u8], n: usize) -> Closed
    requires { (n + 8 ≤ length room.old) × (n ≤ 256) }
    ensures bytes { Seals (take n room.old ++ message_mac s code (take n room.old)) (n + 8) room.old result.length room.new }
    ensures cost { result.cost ≡ message_mac_cost n }
{
    let mac = message_mac(s, code, &room[..n]);
    room[n..n + 8].copy_from_slice(&mac.bytes);
    Closed {
        length: n + 8,
        cost: mac.cost,
    }
}

// Closes the n bytes at the front of a room.
pub fn close(s: Session, m: Mode, code: u8, room: &mut [u8], n: usize) -> Result<Closed, NotClosed>
    ensures { Closes s m code n room.old result room.new }
{
    if too_long(m, n) {
        return Err(NotClosed::TooLong);
    }
    if room.len() < closed_length(m, n) {
        return Err(NotClosed::NoRoom);
    }
    Ok(match m {
        Mode::Plain => Closed { length: n, cost: 0 },
        Mode::Mac => sign(s, code, room, n),
        Mode::Full => {
            let hidden = hide(s, room, n);
            let signed = sign(s, code, room, hidden.length);
            Closed {
                length: signed.length,
                cost: hidden.cost + signed.cost,
            }
        }
    })
}
