//! What no clause can say of any reader: that reading succeeds, that a read which fails ends it, and what is left of the buffer.
use crate::read_full;
use std::io;
use std::io::Read;
use std::test::*;

// Gives its bytes one at a time, and fails once, when so many are left.
#[derive(Drop)]
struct Slow<'a> {
    bytes: &'a [u8],
    fails_at: Option<usize>,
}

impl<'a> Read for Slow<'a> {
    fn read(&mut self, buf: &mut [u8]) -> io::Result<usize> {
        if self.fails_at == Some(self.bytes.len()) {
            self.fails_at = None;
            return Err(io::Error::from(io::ErrorKind::BrokenPipe));
        }
        let room = buf.len().min(1);
        self.bytes.read(&mut buf[..room])
    }
}

#[test]
fn a_full_buffer_and_a_short_one(rt: HostRuntime) -> Result<(), Fail> {
    let mut input: &[u8] = b"abcde";
    let mut buf = [b'-'; 3];
    assert_eq!(rt; read_full(&mut input, &mut buf)?, 3);
    assert!(rt; buf == *b"abc");
    // past what came, a slice leaves the buffer as it was
    assert_eq!(rt; read_full(&mut input, &mut buf)?, 2);
    assert!(rt; buf == *b"dec");
    assert_eq!(rt; read_full(&mut input, &mut buf)?, 0);
    assert_eq!(rt; read_full(&mut input, &mut [])?, 0);
    Ok(())
}

#[test]
fn many_reads_and_one_that_fails(rt: HostRuntime) -> Result<(), Fail> {
    let fails_at = Some(2);
    let mut input = Slow {
        bytes: b"abcde",
        fails_at,
    };
    let mut buf = [b'-'; 8];
    let failed = read_full(&mut input, &mut buf).err().ok_or("no error")?;
    assert!(rt; failed.kind() == io::ErrorKind::BrokenPipe);
    // what came before the error stands in front, and the next call goes on after it
    assert!(rt; buf == *b"abc-----");
    assert_eq!(rt; read_full(&mut input, &mut buf)?, 2);
    assert!(rt; buf == *b"dec-----");
    Ok(())
}
