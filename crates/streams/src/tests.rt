ghost use Rattle.std.specs.Prelude.{◌≤◌, IfOk};

use crate::reading::read_front;
use crate::writing::{LINE_BYTES, write_bytes, write_line};
use std::alloc::Global;
use std::io;
use std::io::{ErrorKind, Read, Write};
use std::test::Fail;

// A source and a writer that give and take at most two bytes at a time, are interrupted before each call that
// goes well, and fail once they have moved so many bytes.
#[derive(Drop)]
struct Slow {
    bytes: Vec<u8>,
    moved: usize,
    fails_at: usize,
    was_interrupted: bool,
}

impl Slow {
    // How many bytes may be moved now.
    fn room(&mut self, wanted: usize) -> io::Result<usize>
        ensures { IfOk result (λ n. n ≤ wanted) }
    {
        self.was_interrupted = !self.was_interrupted;
        if self.was_interrupted {
            return Err(io::Error::from(ErrorKind::Interrupted));
        }
        if self.moved >= self.fails_at {
            return Err(io::Error::from(ErrorKind::BrokenPipe));
        }
        Ok(wanted.min(2).min(self.fails_at - self.moved))
    }
}

impl Read for Slow {
    fn read(&mut self, buf: &mut [u8]) -> io::Result<usize> {
        let room = self.room(buf.len())?;
        let mut left = self.bytes.as_slice().get(self.moved..).unwrap_or(&[]);
        let n = left.read(&mut buf[..room])?;
        self.moved = self.moved.saturating_add(n);
        Ok(n)
    }
}

impl Write for Slow {
    fn write(&mut self, buf: &[u8]) -> io::Result<usize> {
        let room = self.room(buf.len())?;
        self.bytes.extend_from_slice(&buf[..room])?;
        self.moved = self.moved.saturating_add(room);
        Ok(room)
    }

    fn flush(&mut self) -> io::Result<()> {
        Ok(())
    }
}

fn make_slow(heap: Global, bytes: &[u8], fails_at: usize) -> Result<Slow, Fail> {
    Ok(Slow {
        bytes: Vec::from_slice(heap, bytes)?,
        moved: 0,
        fails_at,
        was_interrupted: false,
    })
}

#[test]
fn reads_in_pieces(rt: HostRuntime) -> Result<(), Fail> {
    let mut buffer = [0; 5];
    assert_eq!(rt;
        read_front(&mut make_slow(rt.alloc(), b"abcdefg", 9)?, &mut buffer)?,
        5
    );
    assert_eq!(rt; &buffer[..], b"abcde".as_slice());
    assert_eq!(rt;
        read_front(&mut make_slow(rt.alloc(), b"xyz", 9)?, &mut buffer)?,
        3
    );
    assert_eq!(rt; &buffer[..], b"xyzde".as_slice());
    let failed = read_front(&mut make_slow(rt.alloc(), b"abcdefg", 3)?, &mut buffer);
    assert_eq!(rt; failed.err().map(|e| e.kind()), Some(ErrorKind::BrokenPipe));
    Ok(())
}

#[test]
fn writes_in_pieces(rt: HostRuntime) -> Result<(), Fail> {
    let mut out = make_slow(rt.alloc(), b"", 9)?;
    write_bytes(&mut out, b"abcde")?;
    assert_eq!(rt; out.bytes.as_slice(), b"abcde".as_slice());
    let failed = write_line(&mut out, "fghij");
    assert_eq!(rt; failed.err().map(|e| e.kind()), Some(ErrorKind::BrokenPipe));
    assert_eq!(rt; out.bytes.as_slice(), b"abcdefghi".as_slice());
    let mut room = [0; 2];
    let failed = write_bytes(&mut &mut room[..], b"abc");
    assert_eq!(rt; failed.err().map(|e| e.kind()), Some(ErrorKind::WriteZero));
    assert_eq!(rt; &room[..], b"ab".as_slice());
    Ok(())
}

#[test]
fn longest_line(rt: HostRuntime) -> Result<(), Fail> {
    let mut text = String::new(rt.alloc());
    for _ in 0..LINE_BYTES {
        text.push('x')?;
    }
    let mut out = Vec::new(rt.alloc());
    write_line(&mut out, text.as_str())?;
    assert_eq!(rt; out.len(), LINE_BYTES);
    text.push('x')?;
    assert!(rt; write_line(&mut out, text.as_str()).is_err());
    assert_eq!(rt; out.len(), LINE_BYTES);
    Ok(())
}
