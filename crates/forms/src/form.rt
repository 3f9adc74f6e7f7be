// A text with numbers, and parts that stand or not.
ghost use Rattle.std.specs.Prelude.{◌≡◌, true, ◌≤◌, drop};
ghost use Rattle.forms.specs.Rooms.{Writes};
ghost use Rattle.forms.specs.Forms.{decimal_of, shown_as, piece_of, numbers_of, flags_of, standing, form_of};

use crate::page::Page;

// The decimal digits of a number at the end of a buffer, and where they begin.
fn digits(v: u64, d: &mut [u8; 20]) -> usize
    ensures fits { result ≤ 20 }
    ensures told { drop result d.new ≡ decimal_of v }
{
    d[19] = b'0' + (v % 10) as u8;
    let mut i = 19;
    let mut rest = v / 10;
    while 0 < i && rest != 0 {
        i -= 1;
        d[i] = b'0' + (rest % 10) as u8;
        rest /= 10;
    }
    i
}

// How many numbers a character takes.
#[tactic(auto, unfolding(crate::specs::Forms::numbers_of))]
fn numbers_of(c: u8) -> usize
    ensures { result ≡ numbers_of c }
{
    usize::from(matches!(c, b'#' | b'%'))
}

// How many flags it takes.
#[tactic(auto, unfolding(crate::specs::Forms::flags_of))]
fn flags_of(c: u8) -> usize
    ensures { result ≡ flags_of c }
{
    usize::from(c == b'{')
}

// Whether what follows a character stands.
#[tactic(auto, unfolding(crate::specs::Forms::standing))]
fn stands(on: bool, c: u8, flag: bool) -> bool
    ensures { result ≡ standing on c flag }
{
    match c {
        b'{' => flag,
        b'|' => !on,
        b'}' => true,
        _ => on,
    }
}

impl Page<'_> {
    // A number in decimal.
    fn decimal(&mut self, v: u64)
        ensures { Writes (decimal_of v) self.old self.new }
    {
        let mut d = [0u8; 20];
        let start = digits(v, &mut d);
        self.append_from(&d, start);
    }

    // What a character of a form stands for: a number, its last hexadecimal digit, nothing, or itself.
    fn shown(&mut self, c: u8, v: u64)
        ensures { Writes (shown_as c v) self.old self.new }
    {
        match c {
            b'#' => self.decimal(v),
            b'%' => self.append(&[lines::character((v % 16) as u8)]),
            b'{' | b'|' | b'}' => {}
            _ => self.append(&[c]),
        }
    }

    // The same where its part stands, and else nothing.
    fn piece(&mut self, on: bool, c: u8, v: u64)
        ensures { Writes (piece_of on c v) self.old self.new }
    {
        if on {
            self.shown(c, v);
        }
    }

    // A form with its numbers and flags.
    pub fn append_form(&mut self, form: &[u8], numbers: &[u64], flags: &[bool])
        ensures { Writes (form_of true form.now numbers.now flags.now) self.old self.new }
    {
        let mut on = true;
        let mut k = 0;
        let mut j = 0;
        for &c in form {
            self.piece(on, c, numbers.get(k).copied().unwrap_or(0));
            on = stands(on, c, flags.get(j).copied().unwrap_or(false));
            k += numbers_of(c);
            j += flags_of(c);
        }
    }
}
