// Taps (9.3): where one starts and goes on, what it shows, and what it gives.
#![tactic(auto)]

mod taps;

pub use taps::read_tap;
