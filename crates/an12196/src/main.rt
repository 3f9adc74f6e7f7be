// The worked values that NXP publishes in AN12196, computed by `messaging` and compared; then values that are wrong on purpose, one of
// each kind, so that a program that compares nothing is found out. Prints each value that differs, and the totals.
#![tactic(auto)]

mod exchanges;
mod file_settings;
mod key_changes;
mod mutual;
mod parts;
mod tally;
mod tap_values;
mod taps;
mod wrong;

use tally::Tally;

fn main(rt: HostRuntime) {
    let mut tally = Tally::default();
    parts::first_parts(&rt, &mut tally);
    parts::last_part(&rt, &mut tally);
    exchanges::change_file_settings(&rt, &mut tally);
    exchanges::change_key_two(&rt, &mut tally);
    exchanges::change_key_zero(&rt, &mut tally);
    taps::first_tap(&rt, &mut tally);
    taps::second_tap(&rt, &mut tally);
    wrong::values(&rt, &mut tally);
    wrong::statuses(&rt, &mut tally);
    wrong::commands(&rt, &mut tally);
    let _ = println!(rt; "{} values, {} differ", tally.values, tally.differ);
}
