// The MAC of a message and the initial vectors (9.1.3, 9.1.4, 9.1.9).
ghost use Rattle.std.specs.Prelude.{◌≡◌, ◌++◌, length, take, replicate};
ghost use Rattle.base.specs.Bytes.{low};
ghost use Rattle.aes.specs.Block.{cipher, counted, block_cost};
ghost use Rattle.messaging.specs.Protect.{message_mac, message_mac_cost, command_vector, reply_vector, command_iv, reply_iv, vector_cost};

use crate::Session;
use aes::Counted;

// The MAC of a command or a reply: its first byte is the command's or the return code. No body has over 293 bytes; of a longer
// one the first 293 count.
pub fn message_mac(s: Session, first: u8, body: &[u8]) -> Counted<8>
    ensures { result ≡ counted (message_mac s first (take 293 body.now)) (message_mac_cost (length (take 293 body.now))) }
{
    let body = &body[..body.len().min(293)];
    let end = 7 + body.len();
    let mut text = [0; 300];
    let [low, high] = s.counter.to_le_bytes();
    text[..3].copy_from_slice(&[first, low, high]);
    text[3..7].copy_from_slice(&s.ti);
    text[7..end].copy_from_slice(body);
    cmac::mac_of(&key_expansion::expand(s.mac), &text[..end])
}

// A vector under round keys, for a label.
fn vector(w: &[[u8; 16]; 11], label: [u8; 2], s: Session) -> Counted<16>
    ensures { result ≡ counted (cipher w.now (label ++ s.ti ++ low 2 s.counter ++ replicate 8 0)) block_cost }
{
    let [first, second] = label;
    let [t0, t1, t2, t3] = s.ti;
    let [low, high] = s.counter.to_le_bytes();
    aes::encrypt(
        w,
        [
            first, second, t0, t1, t2, t3, low, high, 0, 0, 0, 0, 0, 0, 0, 0,
        ],
    )
}

// The vector of a command's data, under round keys.
#[tactic(auto, unfolding(crate::specs::Protect::command_vector))]
pub fn command_vector(w: &[[u8; 16]; 11], s: Session) -> Counted<16>
    ensures { result ≡ counted (command_vector w.now s) vector_cost }
{
    vector(w, [0xA5, 0x5A], s)
}

// The vector of a reply's data, under round keys.
#[tactic(auto, unfolding(crate::specs::Protect::reply_vector))]
pub fn reply_vector(w: &[[u8; 16]; 11], s: Session) -> Counted<16>
    ensures { result ≡ counted (reply_vector w.now s) vector_cost }
{
    vector(w, [0x5A, 0xA5], s)
}

// The vector of a command's data.
#[tactic(auto, unfolding(crate::specs::Protect::command_iv))]
pub fn command_iv(s: Session) -> Counted<16>
    ensures { result ≡ counted (command_iv s) vector_cost }
{
    command_vector(&key_expansion::expand(s.enc), s)
}

// The vector of a reply's data.
#[tactic(auto, unfolding(crate::specs::Protect::reply_iv))]
pub fn reply_iv(s: Session) -> Counted<16>
    ensures { result ≡ counted (reply_iv s) vector_cost }
{
    reply_vector(&key_expansion::expand(s.enc), s)
}
