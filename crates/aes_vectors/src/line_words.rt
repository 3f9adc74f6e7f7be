// The words of a line, one space between two, counted from 0.
ghost use Rattle.std.specs.Prelude.{◌≡◌, true, false};
ghost use Rattle.base.specs.Bytes.{same};
ghost use Rattle.base.specs.Decide.{pick};

// A word; no bytes where there are fewer.
pub fn word(line: &[u8], k: usize) -> &[u8] {
    line.split(|&b| b == b' ').nth(k).unwrap_or(&[])
}

// The bytes of a word at the front of a room; None where they are no digits, or more than the room has.
pub fn field<'a>(line: &[u8], k: usize, room: &'a mut [u8]) -> Option<&'a mut [u8]> {
    let digits = word(line, k);
    let n = if digits == b"-".as_slice() {
        0
    } else {
        lines::decode(digits, room).ok()?
    };
    room.get_mut(..n)
}

// The 16 bytes of a word.
pub fn block(line: &[u8], k: usize) -> Option<[u8; 16]> {
    let mut block = [0; 16];
    let n = field(line, k, &mut block)?.len();
    (n == 16).then_some(block)
}

// Prints a line's name and what we have to say of it.
pub fn differs(rt: &impl Print, line: &[u8], what: &[u8]) -> bool
    ensures { result ≡ false }
{
    let _ = rt.write_all(word(line, 1));
    let _ = rt.write_all(b": ");
    let _ = rt.write_all(what);
    let _ = rt.write_all(b"\n");
    false
}

// Whether ours is what the line expects; else ours is printed.
pub fn compared(rt: &impl Print, line: &[u8], expected: &[u8], ours: &[u8]) -> bool
    ensures { result ≡ same expected.now ours.now }
{
    base::alike(expected, ours) || differs(rt, line, ours)
}

// Whether ours is not what the line has; else that is said.
pub fn unlike(rt: &impl Print, line: &[u8], theirs: &[u8], ours: &[u8]) -> bool
    ensures { result ≡ pick (same theirs.now ours.now) false true }
{
    !base::alike(theirs, ours) || differs(rt, line, b"the tag matches")
}
