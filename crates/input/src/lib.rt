// Reads a whole input into a buffer.
#![tactic(auto)]

ghost use Rattle.std.specs.Prelude.{◌≤◌, length, IsTrue};
ghost use Rattle.std.specs.Io.KnownBytes.{IsAtEnd};

use std::io::Read;

// Reads until the buffer is full, the input ends or a read fails, and returns how many bytes it put at the buffer's start. A read that fails leaves
// off like one at the end: the caller reads once more to tell them apart.
pub fn read_full<R: Read>(reader: &mut R, buf: &mut [u8]) -> usize
    ensures { result ≤ length buf.new }
{
    let mut done = 0;
    while done < buf.len() {
        match reader.read(&mut buf[done..]) {
            Ok(0) | Err(_) => break,
            Ok(n) => done += n,
        }
    }
    done
}

// The input has ended: one more read gives nothing. A read that fails is no end.
pub fn has_ended<R: Read>(reader: &mut R) -> bool
    ensures { IsTrue result → IsAtEnd (R.remaining reader.old) }
{
    let mut more = [0u8; 1];
    matches!(reader.read(&mut more), Ok(0))
}
