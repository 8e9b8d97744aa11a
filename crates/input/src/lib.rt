// Standard input, or another reader, into a lent buffer: whole, cut at the end of the buffer, or failed.
#![tactic(auto)]

mod program;

ghost use Rattle.std.specs.Prelude.{◌≡◌, length};
ghost use Rattle.input.specs.Input.{input_of, Reads};

pub use program::{Program, run};
use std::io;
use std::io::Read;

// How many bytes of an input settle what is printed: one more than a rule file may have (`input_room`).
pub const ROOM: usize = 8193;

// How far reading has come: more may follow behind so many bytes, or the input ended behind so many.
#[derive(Clone, Copy)]
pub enum Input {
    More(usize),
    End(usize),
}

// What a read answered that came behind `done` bytes in a buffer of `room`. A read that fails is not taken for the end, and one that a
// signal interrupts before it moves a byte is a failure too: `read` of std answers it with an error, and does not try again.
#[tactic(auto, unfolding(crate::specs::Input::input_of))]
fn next(got: io::Result<usize>, done: usize, room: usize) -> io::Result<Input>
    ensures { result ≡ input_of got done room }
{
    match got? {
        0 => Ok(Input::End(done)),
        n => Ok(Input::More(done.saturating_add(n).min(room))),
    }
}

// Reads until the input ends, the buffer is full or a read fails. Which bytes are read is open: they are the reader's, and those of standard
// input are the operating system's.
// Refused: another answer for the last read's; twice as many bytes.
pub fn read<R: Read>(from: &mut R, text: &mut [u8]) -> io::Result<Input>
    ensures { Reads (length text.new) result }
{
    let room = text.len();
    let mut done = 0;
    // (no `for`: how far a turn goes is the reader's answer)
    while done < room {
        let input = next(from.read(&mut text[done..]), done, room)?;
        let Input::More(n) = input else {
            return Ok(input);
        };
        done = n;
    }
    Ok(Input::More(done))
}

#[cfg(test)]
mod tests {
    use super::*;

    // A reader that gives one byte at a time, `left` of them, and then ends or fails.
    #[derive(Drop)]
    struct Trickle {
        left: usize,
        fails: bool,
    }

    impl Read for Trickle {
        fn read(&mut self, buf: &mut [u8]) -> io::Result<usize> {
            if self.left == 0 {
                return if self.fails {
                    Err(io::Error::from(io::ErrorKind::Interrupted))
                } else {
                    Ok(0)
                };
            }
            if buf.is_empty() {
                return Ok(0);
            }
            buf[0] = 7;
            self.left -= 1;
            Ok(1)
        }
    }

    fn read_trickle(left: usize, fails: bool, text: &mut [u8]) -> io::Result<Input> {
        read(&mut Trickle { left, fails }, text)
    }

    // Reading goes on after short reads, to the end, to a full buffer or to a failure, which is not taken for the end.
    #[test]
    fn reads_on(rt: HostRuntime) {
        let mut text = [0u8; 5];
        assert!(rt; matches!(read_trickle(0, false, &mut text), Ok(Input::End(0))));
        assert!(rt; matches!(read_trickle(3, false, &mut text), Ok(Input::End(3))));
        assert_eq!(rt; text, [7, 7, 7, 0, 0]);
        assert!(rt; matches!(read_trickle(6, true, &mut text), Ok(Input::More(5))));
        assert_eq!(rt; text, [7, 7, 7, 7, 7]);
        for left in 0..5 {
            let failed = read_trickle(left, true, &mut text);
            assert!(rt; failed.is_err(), "behind {left}");
        }
    }
}
