ghost use Rattle.std.specs.Prelude.{◌≤◌, length, take, IfOk, OnErr};
ghost use Rattle.streams.specs.Fronts.{ReadsFront, LosesFront};

use std::io;
use std::io::{ErrorKind, Read};

/// Reads until the buffer is full or the source has ended, and answers how many bytes it read to the buffer's
/// front.
///
/// A read that is interrupted is tried again; any other error is the answer, and what was read until then is
/// gone from the source.
pub fn read_front<R: Read>(source: &mut R, buffer: &mut [u8]) -> io::Result<usize>
    ensures within { IfOk result (λ n. n ≤ length buffer.new) }
    ensures ok { IfOk result (λ n. ReadsFront (length buffer.old)
        (R.remaining source.old) (R.remaining source.new) (take n buffer.new)) }
    ensures err { OnErr result (LosesFront (length buffer.old)
        (R.remaining source.old) (R.remaining source.new)) }
{
    let mut filled = 0;
    for _ in 0..u64::MAX {
        if filled >= buffer.len() {
            return Ok(filled);
        }
        match source.read(&mut buffer[filled..]) {
            Ok(0) => return Ok(filled),
            Ok(n) => filled += n,
            Err(e) => {
                if e.kind() != ErrorKind::Interrupted {
                    return Err(e);
                }
            }
        }
    }
    Err(io::Error::from(ErrorKind::TimedOut))
}
