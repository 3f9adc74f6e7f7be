// What is printed for each line of a plan, and last of all.
use state::Tag;
use tallies::Tally;

// A form with its numbers and flags.
pub fn tell(rt: &impl Print, form: &[u8], numbers: &[u64], flags: &[bool]) {
    let mut room = [0u8; 512];
    let n = forms::lay_form(form, numbers, flags, &mut room);
    let _ = rt.write_all(&room[..n]);
}

// What the tag is at the end.
pub fn summary(rt: &impl Print, t: Tag) {
    let mut room = [0u8; 2048];
    let n = summaries::summary(t, &mut room);
    let _ = rt.write_all(&room[..n]);
}

// The last line.
pub fn last(rt: &impl Print, n: Tally) {
    tell(
        rt,
        b"# exchanges, # refused, # lines skipped{, # of # not as expected}{, the first in line #}, # blocks\n",
        &[
            n.exchanges,
            n.refused,
            n.skipped,
            n.unmet,
            n.expecting,
            n.first.unwrap_or(0),
            n.blocks,
        ],
        &[0 < n.expecting, 0 < n.unmet],
    );
}
