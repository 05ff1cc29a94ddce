// Reading an input or a file into a buffer of the caller.
#![tactic(auto)]

ghost use Rattle.std.specs.Prelude.{◌≤◌, ◌<◌, length, take, OnOk};
ghost use Rattle.std.specs.Io.KnownBytes.{Consumes, IsAtEnd};

use std::fs::File;
use std::io;
use std::io::Read;
use std::rt::Files;

// Reads until the buffer is full, the input ends or a read fails. Gives how many bytes it put at the front of the buffer, which are those that the input
// has lost, and the failure: where there is none, the buffer is full or the input at its end. A read that a signal interrupts is a failure like others. The
// loop is written out: std's `read_exact` and `read_to_end` say little of what was read before a failure.
pub fn read_full<R: Read>(input: &mut R, buf: &mut [u8]) -> (usize, io::Result<()>)
    ensures within { result.0 ≤ length buf.new }
    ensures bytes { Consumes (R.remaining input.old) (R.remaining input.new) (take result.0 buf.new) }
    ensures all { OnOk result.1 (result.0 < length buf.new → IsAtEnd (R.remaining input.new)) }
{
    let mut done = 0;
    while done < buf.len() {
        match input.read(&mut buf[done..]) {
            Ok(0) => return (done, Ok(())),
            Ok(n) => done += n,
            Err(e) => return (done, Err(e)),
        }
    }
    (done, Ok(()))
}

// Reads the front of a file likewise, and gives what was read. One that can't be opened counts as empty, and a read that fails ends it.
pub fn read_file<'a>(rt: &impl Files, name: &str, buf: &'a mut [u8]) -> &'a [u8]
    ensures { length result.now ≤ length buf.old }
{
    match File::open(rt, name) {
        Ok(mut file) => {
            let (done, _) = read_full(&mut file, buf);
            &buf[..done]
        }
        Err(_) => &[],
    }
}

#[cfg(test)]
mod tests {
    use super::read_full;
    use std::io;
    use std::io::{ErrorKind, Read};

    // Gives one byte a read; the fourth read fails.
    #[derive(Drop)]
    struct Halting {
        reads: u8,
    }

    impl Read for Halting {
        fn read(&mut self, buf: &mut [u8]) -> io::Result<usize> {
            let n = self.reads;
            self.reads = n.wrapping_add(1);
            if n >= 3 {
                return Err(io::Error::from(ErrorKind::Other));
            }
            if buf.is_empty() {
                return Ok(0);
            }
            buf[0] = n;
            Ok(1)
        }
    }

    #[test]
    fn a_failure_keeps_what_came_before(rt: HostRuntime) {
        let mut buf = [9u8; 5];
        let (done, result) = read_full(&mut Halting { reads: 0 }, &mut buf);
        assert_eq!(rt; done, 3);
        assert!(rt; result.is_err());
        assert_eq!(rt; buf, [0, 1, 2, 9, 9]);
    }

    #[test]
    fn a_full_buffer_leaves_the_rest(rt: HostRuntime) {
        let mut input: &[u8] = b"filter";
        let mut buf = [9u8; 4];
        let (done, result) = read_full(&mut input, &mut buf);
        assert_eq!(rt; done, 4);
        assert!(rt; result.is_ok());
        assert_eq!(rt; buf, *b"filt");
        let (done, result) = read_full(&mut input, &mut buf);
        assert_eq!(rt; done, 2);
        assert!(rt; result.is_ok());
        assert_eq!(rt; buf, *b"erlt");
    }
}
