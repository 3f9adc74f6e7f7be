// Whether a state is sound, 01's refusal 3, and what the settings of its three files mean.
#![tactic(auto)]

mod judging;

pub use judging::{judge_tag, sound};
use spans::Reading;

// Whether a state is sound, and the readings of files 1 to 3: they are promised of a state that is not sound too, so they
// stand beside the verdict.
#[derive(Clone, Copy, Debug, PartialEq, Eq)]
pub struct Judged {
    pub sound: bool,
    pub first: Reading,
    pub second: Reading,
    pub third: Reading,
}
