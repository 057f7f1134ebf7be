// Standard input, read into a room.
ghost use Rattle.std.specs.Prelude.{◌≤◌, length, take};
ghost use Rattle.std.specs.Io.KnownBytes.{Consumes};

use std::io::Read;

// Reads until the room is full, the input ends or a read fails, and gives how many bytes it put at the start of the room: those that the
// input has lost.
pub(crate) fn read_full<R: Read>(input: &mut R, room: &mut [u8]) -> usize
    ensures within { result ≤ length room.new }
    ensures bytes { Consumes (R.remaining input.old) (R.remaining input.new) (take result room.new) }
{
    let mut done = 0;
    while let n @ 1.. = input.read(&mut room[done..]).unwrap_or(0) {
        done += n;
    }
    done
}
