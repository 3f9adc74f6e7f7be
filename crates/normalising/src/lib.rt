// Settings strings normalised.
#![tactic(auto)]

ghost use Rattle.std.specs.Prelude.{◌≡◌, ◌≤◌, eqb, leb, length, ltb, set};
ghost use Rattle.base.specs.Decide.{pick, or};
ghost use Rattle.base.specs.Bytes.{laid, same};
ghost use Rattle.fields.specs.Normal.{plain_mode, free_bits, normal};
ghost use Rattle.settings.specs.Answers.{judged};
ghost use Rattle.normalising.specs.declared.NotNormal.TheVariants.{Fault as Faulty};
ghost use Rattle.normalising.specs.Answers.{normalised, normal_room};

use settings::Fault;

// Why there is no normal string.
#[derive(Clone, Copy, Debug, PartialEq, Eq)]
pub enum NotNormal {
    Fault(Fault),
    RoomTooSmall,
}

impl From<Fault> for NotNormal {
    ghost from_gives = { λ fault reason. reason ≡ Faulty fault };

    fn from(fault: Fault) -> NotNormal {
        NotNormal::Fault(fault)
    }
}

#[tactic(auto, unfolding(fields::specs::Normal::plain_mode))]
fn plain_mode(b: u8) -> u8
    ensures { result ≡ plain_mode b }
{
    if b % 4 == 2 { b - 2 } else { b }
}

#[tactic(auto, unfolding(fields::specs::Normal::free_bits))]
fn free_bits(sdm: bool, b: u8) -> u8
    ensures { result ≡ free_bits sdm b }
{
    if sdm { 240 + b % 16 } else { b }
}

// Stores a byte at an index below n.
fn adjust(room: &mut [u8], n: usize, i: usize, v: u8)
    ensures { room.new ≡ pick (ltb i n) (set room.old i v) room.old }
{
    if i < n && i < room.len() {
        room[i] = v;
    }
}

// A string at the front of a room that has place for it. It goes byte by byte: both may be C's, and a copy at once needs memmove there.
fn lay_front(s: &[u8], room: &mut [u8])
    requires { length s.now ≤ length room.old }
    ensures { room.new ≡ laid s.now 0 room.old }
{
    for i in 0..s.len() {
        room[i] = s[i];
    }
}

// The normal form of a good string: its bytes, two of them adjusted.
#[tactic(auto, unfolding(crate::specs::Answers::normalised, crate::specs::Answers::normal_room))]
fn lay_normal(s: &[u8], room: &mut [u8]) -> Result<usize, NotNormal>
    ensures answer { result ≡ normalised (Ok tt) s.now room.old }
    ensures left { room.new ≡ normal_room (Ok tt) s.now room.old }
{
    let n = s.len();
    if room.len() < n {
        return Err(NotNormal::RoomTooSmall);
    }
    lay_front(s, room);
    adjust(room, n, 0, plain_mode(base::at(s, 0)));
    adjust(room, n, 4, free_bits(fields::sdm_on(s), base::at(s, 4)));
    Ok(n)
}

// Whether a byte at an index, if there is one, is already the one that the normal form has there.
fn settled(n: usize, i: usize, b: u8, v: u8) -> bool
    ensures { result ≡ or (leb n i) (eqb b v) }
{
    n <= i || b == v
}

// Whether a string is its own normal form.
#[tactic(auto, unfolding(fields::specs::Normal::normal), using(crate::proofs::Same::same_sets))]
pub fn is_normal(s: &[u8]) -> bool
    ensures { result ≡ same s.now (normal s.now) }
{
    let n = s.len();
    let a = base::at(s, 0);
    let b = base::at(s, 4);
    settled(n, 0, a, plain_mode(a)) && settled(n, 4, b, free_bits(fields::sdm_on(s), b))
}

// The normal string at the front of the room, with its length. A refusal leaves the room.
#[tactic(auto, unfolding(crate::specs::Answers::normalised, crate::specs::Answers::normal_room))]
pub fn normalise(file: u8, s: &[u8], room: &mut [u8]) -> Result<usize, NotNormal>
    ensures answer { result ≡ normalised (judged file s.now) s.now room.old }
    ensures left { room.new ≡ normal_room (judged file s.now) s.now room.old }
{
    settings::judge(file, s)?;
    lay_normal(s, room)
}
