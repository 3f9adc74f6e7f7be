// How many values were compared, and how many differ.
ghost use Rattle.std.specs.Prelude.{◌≡◌};
ghost use Rattle.an12196.specs.Counts.{counted_of};
ghost use Rattle.base.specs.Bytes.{same};

#[derive(Clone, Copy, Debug, Default, PartialEq, Eq)]
pub struct Tally {
    pub values: u64,
    pub differ: u64,
}

impl Tally {
    // One more value, right or not; one that differs is named.
    pub fn count(&mut self, rt: &impl Print, name: &str, right: bool)
        ensures { self.new ≡ counted_of self.old right }
    {
        self.values = self.values % 1000000 + 1;
        if !right {
            self.differ = self.differ % 1000000 + 1;
            let _ = println!(rt; "{name} differs");
        }
    }

    // One more value, compared with the published one.
    pub fn compare(&mut self, rt: &impl Print, name: &str, ours: &[u8], theirs: &[u8])
        ensures { self.new ≡ counted_of self.old (same ours.now theirs.now) }
    {
        self.count(rt, name, base::alike(ours, theirs));
    }
}
