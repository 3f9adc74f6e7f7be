// Each kind of vector, with the round keys of its key.
use crate::line_words::{block, compared, differs, field, unlike, word};

// Whether bytes of ours are a word of the line; else they are printed.
fn same(rt: &impl Print, line: &[u8], k: usize, ours: &[u8]) -> bool {
    let mut room = [0; 512];
    lines::encode(ours, &mut room);
    match room.get(..2 * ours.len()) {
        Some(digits) => compared(rt, line, word(line, k), digits),
        None => differs(rt, line, b"too long"),
    }
}

pub fn keys(rt: &impl Print, w: &[[u8; 16]; 11], line: &[u8]) -> bool {
    same(rt, line, 3, w.as_flattened())
}

// Every whole block of a buffer by itself.
fn each_block<F: Fn([u8; 16]) -> [u8; 16]>(buf: &mut [u8], through: F)
    requires { F.IsAlwaysCallable through }
{
    let (blocks, _) = buf.as_chunks_mut::<16>();
    for block in blocks {
        *block = through(*block);
    }
}

// Whether one word of the line gives another.
fn gives<F: Fn(&mut [u8])>(rt: &impl Print, line: &[u8], from: usize, to: usize, through: F) -> bool
    requires { F.IsAlwaysCallable through }
{
    let mut room = [0; 256];
    let Some(buf) = field(line, from, &mut room) else {
        return differs(rt, line, b"no digits");
    };
    through(buf);
    same(rt, line, to, buf)
}

pub fn ecb(rt: &impl Print, w: &[[u8; 16]; 11], line: &[u8]) -> bool {
    gives(rt, line, 3, 4, |buf| {
        each_block(buf, |b| aes::encrypt(w, b).bytes)
    }) && gives(rt, line, 4, 3, |buf| {
        each_block(buf, |b| aes::decrypt(w, b).bytes)
    })
}

pub fn cbc(rt: &impl Print, w: &[[u8; 16]; 11], line: &[u8]) -> bool {
    let Some(iv) = block(line, 3) else {
        return differs(rt, line, b"no initial vector");
    };
    gives(rt, line, 4, 5, |buf| {
        let _ = cbc::cbc_encrypt(w, iv, buf);
    }) && gives(rt, line, 5, 4, |buf| {
        let _ = cbc::cbc_decrypt(w, iv, buf);
    })
}

// The tag of the line's message is the line's.
pub fn cmac(rt: &impl Print, w: &[[u8; 16]; 11], line: &[u8]) -> bool {
    let mut room = [0; 256];
    match field(line, 3, &mut room) {
        Some(message) => same(rt, line, 4, &cmac::cmac_of(w, message).bytes),
        None => differs(rt, line, b"no digits"),
    }
}

// The tag of the line's message is not the line's.
pub fn cmac_bad(rt: &impl Print, w: &[[u8; 16]; 11], line: &[u8]) -> bool {
    let mut room = [0; 256];
    let Some(message) = field(line, 3, &mut room) else {
        return differs(rt, line, b"no digits");
    };
    let Some(theirs) = block(line, 4) else {
        return differs(rt, line, b"no tag");
    };
    unlike(rt, line, &theirs, &cmac::cmac_of(w, message).bytes)
}
