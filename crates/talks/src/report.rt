// What the program prints.
use crate::Unread;

// The digits of n bytes, at the front of a room.
fn show_front(rt: &impl Print, digits: &[u8], n: usize) {
    if n <= digits.len() / 2 {
        let _ = rt.write_all(&digits[..n * 2]);
    }
}

// Bytes as digits, at most 300.
fn show(rt: &impl Print, bytes: &[u8]) {
    let mut digits = [0u8; 600];
    lines::encode(bytes, &mut digits);
    show_front(rt, &digits, bytes.len());
}

// The number of an exchange, and the logged reply.
fn start(rt: &impl Print, number: u64, logged: &[u8]) {
    let _ = print!(rt; "{number} ");
    show(rt, logged);
    let _ = print!(rt; " ");
}

pub fn another(rt: &impl Print, number: u64, logged: &[u8], ours: &[u8]) {
    start(rt, number, logged);
    show(rt, ours);
    let _ = println!(rt);
}

pub fn refusal(rt: &impl Print, number: u64, logged: &[u8], which: u64) {
    start(rt, number, logged);
    let _ = println!(rt; "refusal {which}");
}

// A length past the room is no reply.
pub fn no_reply(rt: &impl Print, number: u64, logged: &[u8]) {
    start(rt, number, logged);
    let _ = println!(rt; "no reply");
}

fn fault(rt: &impl Print, line: u64, what: &str) {
    let _ = println!(rt; "line {line}: {what}");
}

// Names a line that can't be read.
pub fn faulty(rt: &impl Print, line: u64, why: Unread) {
    match why {
        Unread::NotCapitalHex => fault(rt, line, "not capital hexadecimal"),
        Unread::TooLong => fault(rt, line, "longer than 300 bytes"),
        Unread::Missing => fault(rt, line, "the log breaks off"),
    }
}

pub fn totals(rt: &impl Print, exchanges: u64, differ: u64) {
    let _ = println!(rt; "{exchanges} exchanges, {differ} differ");
}

// A log that is refused has no exchange and differs.
pub fn none_played(rt: &impl Print) {
    totals(rt, 0, 1);
}

pub fn no_uid(rt: &impl Print) {
    fault(rt, 1, "no UID of a tag");
    none_played(rt);
}

pub fn too_long(rt: &impl Print) {
    let _ = println!(rt; "the log is longer than 524288 bytes");
    none_played(rt);
}
