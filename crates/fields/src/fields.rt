// The fields behind, three bytes each where present, found by a cursor.
ghost use Rattle.std.specs.Prelude.{◌≡◌, ◌≤◌, ◌+◌};
ghost use Rattle.base.specs.Decide.{pick};
ghost use Rattle.fields.specs.Fields.{three, after, fields, places_of, places_in, read_of, size_of, present, ends, listed};

use super::{Head, Places, Settings, front};

// The number in the three bytes at an index, low byte first.
#[tactic(auto, unfolding(crate::specs::Fields::three, base::specs::Bytes::number))]
fn number_at(s: &[u8], at: usize) -> u32
    requires { at ≤ 27 }
    ensures { result ≡ three s.now at }
{
    u32::from_le_bytes([base::at(s, at), base::at(s, at + 1), base::at(s, at + 2), 0])
}

// The number of a field, and 0 for one that is not there.
fn field(s: &[u8], at: usize, present: bool) -> u32
    requires { at ≤ 27 }
    ensures { result ≡ pick present (three s.now at) 0 }
{
    if present { number_at(s, at) } else { 0 }
}

// Where the next field begins.
fn step(at: usize, present: bool) -> usize
    requires { at ≤ 27 }
    ensures { (result ≡ after at present) × (result ≤ at + 3) }
{
    if present { at + 3 } else { at }
}

// The numbers of the fields, in order.
fn numbers(s: &[u8], there: [bool; 8]) -> [u32; 8]
    ensures { result ≡ fields s.now 6 there }
{
    let mut read = [0; 8];
    let mut at = 6;
    for (i, &present) in there.iter().enumerate() {
        read[i] = field(s, at, present);
        at = step(at, present);
    }
    read
}

// Where the fields end.
fn end_of_fields(there: [bool; 8]) -> usize
    ensures { result ≡ ends 6 there }
{
    let mut at = 6;
    for present in there {
        at = step(at, present);
    }
    at
}

// Eight numbers by name.
#[tactic(auto, unfolding(crate::specs::Fields::places_of))]
fn by_name(numbers: [u32; 8]) -> Places
    ensures { result ≡ places_of numbers }
{
    let [uid, counter, picc, input, enc, size, mac, limit] = numbers;
    Places {
        uid,
        counter,
        picc,
        input,
        enc,
        size,
        mac,
        limit,
    }
}

// The fields behind in the order of Table 69.
#[tactic(auto, unfolding(crate::specs::Fields::listed))]
pub fn in_order(p: Places) -> [u32; 8]
    ensures { result ≡ listed p }
{
    [
        p.uid, p.counter, p.picc, p.input, p.enc, p.size, p.mac, p.limit,
    ]
}

#[tactic(auto, unfolding(crate::specs::Fields::places_in))]
pub fn places(s: &[u8], h: Head) -> Places
    ensures { result ≡ places_in s.now h }
{
    by_name(numbers(s, front::present_fields(h)))
}

// How long a string with these fields in front is.
#[tactic(auto, unfolding(crate::specs::Fields::size_of))]
pub fn size_of(h: Head) -> usize
    ensures { result ≡ size_of h }
{
    if h.sdm {
        end_of_fields(front::present_fields(h))
    } else {
        3
    }
}

#[tactic(auto, unfolding(crate::specs::Fields::read_of))]
pub fn settings(s: &[u8]) -> Settings
    ensures { result ≡ read_of s.now }
{
    let head = front::head(s);
    Settings {
        head,
        places: places(s, head),
    }
}
