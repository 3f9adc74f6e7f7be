// Runs AES-128 vectors of standard input, one a line, '-' for nothing: KEYS NAME KEY ROUND-KEYS, ECB NAME KEY PLAIN CIPHER,
// CBC NAME KEY IV PLAIN CIPHER, CMAC NAME KEY MESSAGE TAG, and CMACBAD NAME KEY MESSAGE TAG, whose tag must not match.
// Prints each that differs, by its name and with ours, and then the totals. The vectors at the end are wrong on purpose.
#![tactic(auto)]

mod line_words;
mod run;
mod totals;

use totals::{Kind, Totals};

// The kind of a line, where it is one of these.
fn kind_of(line: &[u8]) -> Option<Kind> {
    match line_words::word(line, 0) {
        b"KEYS" => Some(Kind::Keys),
        b"ECB" => Some(Kind::Ecb),
        b"CBC" => Some(Kind::Cbc),
        b"CMAC" => Some(Kind::Cmac),
        b"CMACBAD" => Some(Kind::CmacBad),
        _ => None,
    }
}

// Whether a vector agrees.
fn agrees(rt: &impl Print, kind: Option<Kind>, line: &[u8]) -> bool {
    let Some(key) = line_words::block(line, 2) else {
        return line_words::differs(rt, line, b"no key");
    };
    let w = key_expansion::expand(key);
    match kind {
        Some(Kind::Keys) => run::keys(rt, &w, line),
        Some(Kind::Ecb) => run::ecb(rt, &w, line),
        Some(Kind::Cbc) => run::cbc(rt, &w, line),
        Some(Kind::Cmac) => run::cmac(rt, &w, line),
        Some(Kind::CmacBad) => run::cmac_bad(rt, &w, line),
        None => line_words::differs(rt, line, b"no such kind"),
    }
}

// Runs and counts each line; comments and empty lines are none.
fn run_all(rt: &impl Print, text: &[u8]) -> Totals {
    let mut totals = Totals::default();
    for line in text.split(|&b| b == b'\n') {
        let first = line.first().copied().unwrap_or(0);
        if first != 0 && first != b'#' {
            let kind = kind_of(line);
            totals.count(kind, agrees(rt, kind, line));
        }
    }
    totals
}

fn main(rt: HostRuntime) {
    let mut room = [0; 262144];
    let n = reading::read_full(&mut rt.reader(), &mut room);
    let totals = run_all(&rt, &room[..n]);
    let _ = totals.print(&rt);
}
