// The reading of a program's input into an area of a fixed length.
#![tactic(auto)]

ghost use Rattle.std.specs.Prelude.{◌≤◌, length, take};
ghost use Rattle.std.specs.Io.KnownBytes.{Consumes};

use std::io::Read;

// Reads until the area is full, the input ends or a read fails, and gives how many bytes it put at the area's front. On an empty area it
// reads nothing.
pub fn read_full<R: Read>(reader: &mut R, area: &mut [u8]) -> usize
    ensures within { result ≤ length area.new }
    ensures consumed { Consumes (R.remaining reader.old) (R.remaining reader.new) (take result area.new) }
{
    let mut done = 0;
    while done < area.len() {
        match reader.read(&mut area[done..]) {
            Ok(0) | Err(_) => break,
            Ok(n) => done += n,
        }
    }
    done
}

#[cfg(test)]
mod tests {
    use super::*;
    use std::io;

    // Gives a byte a read, as many as are left, and fails from then on.
    #[derive(Drop)]
    struct Failing(u8);

    impl Read for Failing {
        fn read(&mut self, area: &mut [u8]) -> io::Result<usize> {
            if self.0 == 0 || area.is_empty() {
                return Err(io::Error::from(io::ErrorKind::Other));
            }
            self.0 -= 1;
            area[0] = self.0;
            Ok(1)
        }
    }

    #[test]
    fn reads_up_to_a_failure_the_end_or_the_areas_length(rt: HostRuntime) {
        let mut area = [9u8; 4];
        assert_eq!(rt; read_full(&mut Failing(2), &mut area), 2);
        assert_eq!(rt; area, [1, 0, 9, 9]);
        assert_eq!(rt; read_full(&mut Failing(6), &mut area), 4);
        assert_eq!(rt; area, [5, 4, 3, 2]);
        let mut rest: &[u8] = b"abc";
        assert_eq!(rt; read_full(&mut rest, &mut area), 3);
        assert_eq!(rt; area, *b"abc\x02");
        assert_eq!(rt; read_full(&mut rest, &mut area), 0);
    }
}
