// The strings of records laid into a room.
ghost use Rattle.std.specs.Prelude.{◌≡◌, true, [], ◌+◌, ◌*◌, ◌≤◌, leb, length, take};
ghost use Rattle.base.specs.Decide.{pick};
ghost use Rattle.base.specs.Bytes.{low, laid, over};
ghost use Rattle.fields.specs.Fields.{one, after, written, string_of};
ghost use Rattle.rules.specs.Rules.{rights, sdm_rights, modes};
ghost use Rattle.writing.specs.Answers.{record_as, record_room};

use super::NotWritten;
use fields::{Head, Settings};

fn flag(b: bool, x: u8) -> u8
    ensures { (result ≡ x * one b) × (result ≤ x) }
{
    if b { x } else { 0 }
}

// Two conditions in a byte.
fn pair(high: u8, low: u8) -> u8
    requires { (high ≤ 15) × (low ≤ 15) }
    ensures { result ≡ high * 16 + low }
{
    high * 16 + low
}

// Three bytes for a present field, low byte first.
#[tactic(auto, unfolding(base::specs::Bytes::low), using(crate::proofs::Laying::laid_none))]
fn lay_field(room: &mut [u8], at: usize, present: bool, v: u32) -> usize
    requires { (at ≤ 27) × (30 ≤ length room.old) }
    ensures place { (result ≡ after at present) × (result ≤ at + 3) }
    ensures left { room.new ≡ laid (pick present (low 3 v) []) at room.old }
{
    if present {
        let [low, middle, high, _] = v.to_le_bytes();
        base::put(&[low, middle, high], room, at);
        return at + 3;
    }
    at
}

// The present ones of eight numbers.
fn lay_fields(there: [bool; 8], v: [u32; 8], room: &mut [u8]) -> usize
    requires { 30 ≤ length room.old }
    ensures place { (result ≡ 6 + length (written there v)) × (result ≤ 30) }
    ensures left { room.new ≡ laid (written there v) 6 room.old }
{
    let mut at = 6;
    for (i, &present) in there.iter().enumerate() {
        at = lay_field(room, at, present, v[i]);
    }
    at
}

fn option_byte(h: Head) -> u8
    requires { h.mode ≤ 3 }
    ensures { result ≡ h.mode + 64 * one h.sdm }
{
    h.mode + flag(h.sdm, 64)
}

fn sdm_options_byte(h: Head) -> u8
    ensures { result ≡ 128 * one h.uid + 64 * one h.counter + 32 * one h.limit + 16 * one h.enc + 1 }
{
    flag(h.uid, 128) + flag(h.counter, 64) + flag(h.limit, 32) + flag(h.enc, 16) + 1
}

// The string of a record whose conditions and mode fit, in a room of 30 bytes or more.
fn lay_string(r: Settings, room: &mut [u8]) -> usize
    requires { (modes r.head.mode ≡ true) × (rights r.head ≡ true) × (sdm_rights r.head ≡ true) × (30 ≤ length room.old) }
    ensures place { (result ≡ length (string_of r)) × (result ≤ 30) }
    ensures left { room.new ≡ over (string_of r) room.old }
{
    let h = r.head;
    let front = [
        option_byte(h),
        pair(h.read_write, h.change),
        pair(h.read, h.write),
    ];
    base::put(&front, room, 0);
    if h.sdm {
        let sdm = [
            sdm_options_byte(h),
            240 + h.sdm_ctr_ret,
            pair(h.sdm_meta_read, h.sdm_file_read),
        ];
        base::put(&sdm, room, 3);
        return lay_fields(fields::present_fields(h), fields::in_order(r.places), room);
    }
    3
}

// The first n bytes at the front of a room, where they fit.
fn lay_front(own: &[u8], n: usize, room: &mut [u8]) -> Result<usize, NotWritten>
    requires { n ≤ length own.now }
    ensures answer { result ≡ pick (leb n (length room.old)) (Ok n) (Err NotWritten.NoRoom) }
    ensures left { room.new ≡ pick (leb n (length room.old)) (over (take n own.now) room.old) room.old }
{
    if room.len() < n {
        return Err(NotWritten::NoRoom);
    }
    base::put(&own[..n], room, 0);
    Ok(n)
}

// The string of a record that meets the rules.
pub fn lay_record(r: Settings, room: &mut [u8]) -> Result<usize, NotWritten>
    requires { (modes r.head.mode ≡ true) × (rights r.head ≡ true) × (sdm_rights r.head ≡ true) }
    ensures answer { result ≡ record_as true r room.old }
    ensures left { room.new ≡ record_room true r room.old }
{
    let mut own = [0u8; 30];
    let n = lay_string(r, &mut own);
    lay_front(&own, n, room)
}
