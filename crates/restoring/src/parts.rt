// The parts of a state, from those of an image.
ghost use Rattle.std.specs.Prelude.{◌≡◌, ◌+◌, ◌≤◌, length};
ghost use Rattle.image.specs.Image.{bytes_from, files_in, secrets_in, live_in, pending_in, place_in, tap_in, tag_in};
ghost use Rattle.image.specs.Answers.{bits_at, booleans, refused_as};

use image::{NoImage, NotRead};
use state::{Files, Live, Pending, Place, Secrets, Tag, Tapping};

// Where the Booleans of an image stand.
const BOOLEANS: [usize; 6] = [593, 633, 634, 664, 666, 667];

// A refusal, with the state of zeros beside it.
pub fn refused(why: NoImage) -> Result<Tag, NotRead>
    ensures { result ≡ refused_as why }
{
    let beside = delivery::blank();
    Err(NotRead { why, beside })
}

// Whether every Boolean byte is 0 or 1.
pub fn bits_right(s: &[u8]) -> bool
    ensures { result ≡ bits_at s.now booleans }
{
    BOOLEANS.iter().all(|&place| base::at(s, place) <= 1)
}

// N bytes from an index on.
fn bytes_in<const N: usize>(s: &[u8], at: usize) -> [u8; N]
    requires { at + N ≤ length s.now }
    ensures { result ≡ bytes_from s.now at N }
{
    let mut bytes = [0; N];
    bytes.copy_from_slice(&s[at..at + N]);
    bytes
}

#[tactic(auto, unfolding(image::specs::Image::files_in))]
fn files_in(s: &[u8]) -> Files
    requires { length s.now ≡ 500 }
    ensures { result ≡ files_in s.now }
{
    let bytes = bytes_in(s, 0);
    let rules = bytes_in(s, 416);
    let lens = bytes_in(s, 497);
    Files { bytes, rules, lens }
}

#[tactic(auto, unfolding(image::specs::Image::secrets_in))]
fn secrets_in(s: &[u8]) -> Secrets
    requires { length s.now ≡ 85 }
    ensures { result ≡ secrets_in s.now }
{
    let keys = bytes_in(s, 0);
    let versions = bytes_in(s, 80);
    Secrets { keys, versions }
}

#[tactic(auto, unfolding(image::specs::Image::live_in))]
fn live_in(s: &[u8]) -> Live
    requires { length s.now ≡ 40 }
    ensures { result ≡ live_in s.now }
{
    let enc = bytes_in(s, 2);
    let mac = bytes_in(s, 18);
    let ti = bytes_in(s, 34);
    Live {
        on: s[0] == 1,
        key: s[1],
        enc,
        mac,
        ti,
        counter: u16::from_le_bytes(bytes_in(s, 38)),
    }
}

#[tactic(auto, unfolding(image::specs::Image::pending_in))]
fn pending_in(s: &[u8]) -> Pending
    requires { length s.now ≡ 31 }
    ensures { result ≡ pending_in s.now }
{
    let rnd_b = bytes_in(s, 3);
    let cap = bytes_in(s, 19);
    let ti = bytes_in(s, 25);
    Pending {
        on: s[0] == 1,
        first: s[1] == 1,
        key: s[2],
        rnd_b,
        cap,
        ti,
        counter: u16::from_le_bytes(bytes_in(s, 29)),
    }
}

#[tactic(auto, unfolding(image::specs::Image::place_in))]
fn place_in(s: &[u8]) -> Place
    ensures { result ≡ place_in s.now }
{
    Place {
        application: base::at(s, 0) == 1,
        file: base::at(s, 1),
    }
}

#[tactic(auto, unfolding(image::specs::Image::tap_in))]
fn tap_in(s: &[u8]) -> Tapping
    requires { length s.now ≡ 18 }
    ensures { result ≡ tap_in s.now }
{
    let padding = bytes_in(s, 6);
    Tapping {
        on: s[0] == 1,
        iso: s[1] == 1,
        counter: u32::from_le_bytes(bytes_in(s, 2)),
        padding,
    }
}

// The state in bytes of an image's length.
#[tactic(auto, unfolding(image::specs::Image::tag_in))]
pub fn tag_in(s: &[u8]) -> Tag
    requires { length s.now ≡ 684 }
    ensures { result ≡ tag_in s.now }
{
    let uid = bytes_in(s, 1);
    Tag {
        uid,
        files: files_in(&s[8..508]),
        secrets: secrets_in(&s[508..593]),
        live: live_in(&s[593..633]),
        pending: pending_in(&s[633..664]),
        place: place_in(&s[664..666]),
        tap: tap_in(&s[666..684]),
    }
}
