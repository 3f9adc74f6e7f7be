// A lent room that text is written into, as much as it takes.
ghost use Rattle.std.specs.Prelude.{true, drop};
ghost use Rattle.forms.specs.Forms.{form_of};
ghost use Rattle.forms.specs.Rooms.{Lays, Writes};

// A room, and how many bytes of it are used.
#[derive(Drop)]
pub struct Page<'a> {
    pub room: &'a mut [u8],
    pub used: usize,
}

impl Page<'_> {
    // Bytes behind those that are used.
    pub fn append(&mut self, s: &[u8])
        ensures { Writes s.now self.old self.new }
    {
        if self.room.len() < self.used {
            return;
        }
        let n = s.len().min(self.room.len() - self.used);
        base::put(&s[..n], self.room, self.used);
        self.used += n;
    }

    // Bytes from an index on.
    pub fn append_from(&mut self, s: &[u8], k: usize)
        ensures { Writes (drop k s.now) self.old self.new }
    {
        self.append(s.get(k..).unwrap_or(b""));
    }
}

// Bytes at the front of a room, and how many they are.
pub fn lay(s: &[u8], room: &mut [u8]) -> usize
    ensures { Lays s.now 0 room.old result room.new }
{
    let mut page = Page { room, used: 0 };
    page.append(s);
    page.used
}

// A form at the front of a room, and how long it is.
pub fn lay_form(form: &[u8], numbers: &[u64], flags: &[bool], room: &mut [u8]) -> usize
    ensures { Lays (form_of true form.now numbers.now flags.now) 0 room.old result room.new }
{
    let mut page = Page { room, used: 0 };
    page.append_form(form, numbers, flags);
    page.used
}
