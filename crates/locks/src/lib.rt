// Whether a file is locked, and the line that a rehearsal prints of it at its end.
#![tactic(auto)]

ghost use Rattle.std.specs.Prelude.{◌≡◌};
ghost use Rattle.forms.specs.Rooms.{Lays};
ghost use Rattle.locks.specs.Locks.{locked, lock_of};

use fields::Head;
use forms::Page;

// Whether Write, ReadWrite and Change are F.
#[tactic(auto, unfolding(crate::specs::Locks::locked))]
pub fn locked(h: Head) -> bool
    ensures { result ≡ locked h }
{
    h.write == 15 && h.read_write == 15 && h.change == 15
}

// The line of a file: locked, or which of the three rights is open, and whether to all (E) or to a key.
#[tactic(auto, unfolding(crate::specs::Locks::lock_form, crate::specs::Locks::lock_of, crate::specs::Locks::is_open, crate::specs::Locks::is_free, crate::specs::Locks::is_key))]
pub fn lock_line(number: u8, h: Head, room: &mut [u8], n: usize) -> usize
    ensures { Lays (lock_of number h) n room.old result room.new }
{
    let shut = locked(h);
    let mut page = Page { room, used: n };
    page.append_form(
        b"  file #: {locked, its bytes and settings can't change any more|not locked}{, Write is open to }{all}{key #}{, ReadWrite is open to }{all}{key #}{, Change is open to }{all}{key #}\n",
        &[
            u64::from(number),
            u64::from(h.write),
            u64::from(h.read_write),
            u64::from(h.change),
        ],
        &[
            shut,
            h.write <= 14,
            h.write == 14,
            h.write <= 13,
            h.read_write <= 14,
            h.read_write == 14,
            h.read_write <= 13,
            h.change <= 14,
            h.change == 14,
            h.change <= 13,
        ],
    );
    page.used
}
