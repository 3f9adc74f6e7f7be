// What a line of a plan did, and how many lines did each.
#![tactic(auto)]

ghost use Rattle.std.specs.Prelude.{◌≡◌};
ghost use Rattle.tallies.specs.Counts.{sum_by, more_by, first_by, counted_by, no_tally};

// What a line did: a command was played, its reply refused; the line was skipped, since the machine gave no random bytes; it expected
// something, and the reply was not that. And how many AES blocks were computed for it.
#[derive(Clone, Copy, Debug, PartialEq, Eq)]
pub struct Went {
    pub played: bool,
    pub refused: bool,
    pub skipped: bool,
    pub undrawn: bool,
    pub expecting: bool,
    pub unmet: bool,
    pub blocks: u64,
}

// How many lines did each of these; the first line whose reply was not as expected; the AES blocks of all lines.
#[derive(Clone, Copy, Debug, PartialEq, Eq)]
pub struct Tally {
    pub exchanges: u64,
    pub refused: u64,
    pub skipped: u64,
    pub undrawn: u64,
    pub expecting: u64,
    pub unmet: u64,
    pub first: Option<u64>,
    pub blocks: u64,
}

// One more where it is so.
#[tactic(auto, unfolding(crate::specs::Counts::more_by, crate::specs::Counts::sum_by))]
fn more(n: u64, so: bool) -> u64
    ensures { result ≡ more_by n so }
{
    n.saturating_add(u64::from(so))
}

// A line more is counted.
#[tactic(auto, unfolding(crate::specs::Counts::counted_by, crate::specs::Counts::first_by, crate::specs::Counts::sum_by))]
pub fn counted(n: Tally, number: u64, w: Went) -> Tally
    ensures { result ≡ counted_by n number w }
{
    Tally {
        exchanges: more(n.exchanges, w.played),
        refused: more(n.refused, w.refused),
        skipped: more(n.skipped, w.skipped),
        undrawn: more(n.undrawn, w.undrawn),
        expecting: more(n.expecting, w.expecting),
        unmet: more(n.unmet, w.unmet),
        first: if w.unmet && n.unmet == 0 {
            Some(number)
        } else {
            n.first
        },
        blocks: n.blocks.saturating_add(w.blocks),
    }
}

// Nothing is counted yet.
#[tactic(auto, unfolding(crate::specs::Counts::no_tally))]
pub fn none() -> Tally
    ensures { result ≡ no_tally }
{
    Tally {
        exchanges: 0,
        refused: 0,
        skipped: 0,
        undrawn: 0,
        expecting: 0,
        unmet: 0,
        first: None,
        blocks: 0,
    }
}
