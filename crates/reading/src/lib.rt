// Reads input into a room.
#![tactic(auto)]

ghost use Rattle.std.specs.Prelude.{take};
ghost use Rattle.std.specs.Io.KnownBytes.{Consumes};
ghost use Rattle.reading.specs.Counts.{IsPrefixLen};

use std::io::Read;

// Reads until the room is full, the input ends or a read fails. How many bytes stand at the front of the room then: those that the input
// gave, none of them lost.
pub fn read_full<R: Read>(input: &mut R, room: &mut [u8]) -> usize
    ensures within { IsPrefixLen result room.new }
    ensures taken { Consumes (R.remaining input.old) (R.remaining input.new) (take result room.new) }
{
    let mut done = 0;
    while done < room.len() {
        match input.read(&mut room[done..]) {
            Ok(0) | Err(_) => return done,
            Ok(n) => done += n,
        }
    }
    done
}
