//! What a program reads: its input into a buffer of a fixed size.
#![tactic(auto)]

ghost use Rattle.std.specs.Prelude.{◌<◌, ◌≤◌, ◌≡◌, length, take, IfOk, OnErr, IfSome};
ghost use Rattle.std.specs.Io.KnownBytes.{Consumes, IsAtEnd};
ghost use Rattle.reads.specs.Front.{FrontConsumed};

use std::io;
use std::io::Read;

/// How many bytes of its input a program takes.
pub const MOST_BYTES: usize = 32_768;

/// Reads until the buffer is full or the input ends, and gives how many bytes came. A read that fails ends it with that error: the
/// bytes that came before it stand at the front of the buffer, and the reader has lost no others.
// Two things no clause can say of every reader: what it leaves in the buffer past the bytes that it gave, and that an error was
// its own. The programs use neither, and the tests try both.
// A loop of its own: std's `read_exact` fails where the input is short, and `read_to_end` allocates.
pub fn read_full<R: Read>(input: &mut R, buf: &mut [u8]) -> io::Result<usize>
    ensures most { IfOk result (λ n. n ≤ length buf.new) }
    ensures bytes { IfOk result (λ n. Consumes (R.remaining input.old) (R.remaining input.new) (take n buf.new)) }
    ensures front { IfOk result (λ n. IfSome (R.remaining input.old) (λ bytes. take n buf.new ≡ take (length buf.new) bytes)) }
    ensures end { IfOk result (λ n. n < length buf.new → IsAtEnd (R.remaining input.new)) }
    ensures err { OnErr result (FrontConsumed (R.remaining input.old) (R.remaining input.new) buf.new) }
{
    let mut n = 0;
    while n < buf.len() {
        let got = input.read(&mut buf[n..])?;
        if got == 0 {
            return Ok(n);
        }
        n += got;
    }
    Ok(n)
}

#[cfg(test)]
mod tests;
