// What a reader gives, put into a lent room. Each program has a function of its own for it, with the same clauses.
#![tactic(auto)]

ghost use Rattle.std.specs.Prelude.{◌≤◌, length, take};
ghost use Rattle.std.specs.Io.KnownBytes.{Consumes};

use std::io::Read;

// Reads until the room is full, the input ends or a read fails, and gives how many bytes it put at the start of the room: those that the
// input has lost.
pub fn read_full<R: Read>(input: &mut R, room: &mut [u8]) -> usize
    ensures within { result ≤ length room.new }
    ensures bytes { Consumes (R.remaining input.old) (R.remaining input.new) (take result room.new) }
{
    let mut done = 0;
    while let n @ 1.. = input.read(&mut room[done..]).unwrap_or(0) {
        done += n;
    }
    done
}

#[cfg(test)]
mod tests {
    use super::read_full;
    use std::io;
    use std::io::Read;

    // It gives a byte at a time.
    #[derive(Drop)]
    struct Slow<'a>(&'a [u8]);

    impl Read for Slow<'_> {
        fn read(&mut self, buf: &mut [u8]) -> io::Result<usize> {
            let len = buf.len().min(1);
            self.0.read(&mut buf[..len])
        }
    }

    // That it reads on after a read which gave less than there was room for, no clause says.
    #[test]
    fn reads_on(rt: HostRuntime) {
        let text = b"50K:A".as_slice();
        for (len, want) in [(0, 0), (1, 1), (2, 2), (4, 4), (5, 5), (8, 5)] {
            let mut room = [0u8; 8];
            let mut input = Slow(text);
            assert_eq!(rt; read_full(&mut input, &mut room[..len]), want, "of {len}");
            assert_eq!(rt; &room[..want], &text[..want], "of {len}");
            assert_eq!(rt; read_full(&mut input, &mut room), 5 - want, "after {len}");
            assert_eq!(rt; &room[..5 - want], &text[want..], "after {len}");
        }
    }
}
