// Padding method 2 of ISO/IEC 9797-1, both ways (9.1.4).
#![tactic(auto)]

ghost use Rattle.std.specs.Prelude.{◌≡◌};
ghost use Rattle.base.specs.Decide.{pick};
ghost use Rattle.padding.specs.Padding.{unpad, unpadded_status, is_padded, Pads};

// 80 and zeros, as long as padding gets.
const PADDING: [u8; 16] = [128, 0, 0, 0, 0, 0, 0, 0, 0, 0, 0, 0, 0, 0, 0, 0];

// Pads the n bytes at the front of a room, and says how long they are then; None where the room is too small.
pub fn pad(room: &mut [u8], n: usize) -> Option<usize>
    ensures { Pads n room.old result room.new }
{
    let more = 16 - n % 16;
    if room.len() < n || room.len() - n < more {
        return None;
    }
    room[n..n + more].copy_from_slice(&PADDING[..more]);
    Some(n + more)
}

// How long the text is that was padded; None where its padding is wrong.
#[tactic(auto, unfolding(crate::specs::Padding::unpad, crate::specs::Padding::blocks, crate::specs::Padding::mark), using(crate::proofs::Padding::told_status, crate::proofs::Unpadding::mark_step))]
pub fn unpad(s: &[u8]) -> Option<usize>
    ensures told { result ≡ unpad s.now }
    ensures status { unpadded_status result ≡ pick (is_padded s.now) 0x9100 0x911E }
{
    if s.len() % 16 != 0 || s.len() < 16 {
        return None;
    }
    for i in (s.len() - 16..s.len()).rev() {
        match s[i] {
            128 => return Some(i),
            0 => {}
            _ => return None,
        }
    }
    None
}
