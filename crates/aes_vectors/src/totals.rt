// How many vectors there were, and how many differ.
use std::io;

// What a vector is of.
#[derive(Clone, Copy, Debug, PartialEq, Eq)]
pub enum Kind {
    Keys,
    Ecb,
    Cbc,
    Cmac,
    CmacBad,
}

#[derive(Clone, Copy, Debug, Default, PartialEq, Eq)]
pub struct Totals {
    vectors: u64,
    differ: u64,
    keys: u64,
    ecb: u64,
    cbc: u64,
    cmac: u64,
    cmac_bad: u64,
}

impl Totals {
    // One more vector, which agrees or not.
    pub fn count(&mut self, kind: Option<Kind>, agrees: bool) {
        self.vectors = self.vectors.wrapping_add(1);
        if !agrees {
            self.differ = self.differ.wrapping_add(1);
        }
        match kind {
            Some(Kind::Keys) => self.keys = self.keys.wrapping_add(1),
            Some(Kind::Ecb) => self.ecb = self.ecb.wrapping_add(1),
            Some(Kind::Cbc) => self.cbc = self.cbc.wrapping_add(1),
            Some(Kind::Cmac) => self.cmac = self.cmac.wrapping_add(1),
            Some(Kind::CmacBad) => self.cmac_bad = self.cmac_bad.wrapping_add(1),
            None => {}
        }
    }

    pub fn print(&self, rt: &impl Print) -> io::Result<()> {
        println!(rt; "KEYS {}", self.keys)?;
        println!(rt; "ECB {}", self.ecb)?;
        println!(rt; "CBC {}", self.cbc)?;
        println!(rt; "CMAC {}", self.cmac)?;
        println!(rt; "CMACBAD {}", self.cmac_bad)?;
        println!(rt; "{} vectors, {} differ", self.vectors, self.differ)
    }
}
