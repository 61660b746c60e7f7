ghost use Rattle.std.specs.Prelude.{IfSome};
ghost use Rattle.streams.specs.Fronts.{Writes};

use std::fmt::{Display, InlineText, Write as _};
use std::io;
use std::io::{ErrorKind, Write};

/// The most bytes that `write_line` writes.
pub const LINE_BYTES: usize = 128;

/// Writes all of the bytes or, where that fails, a front of them.
///
/// A write that is interrupted is tried again; one that takes no byte is the error `WriteZero`, and any other
/// error is the answer.
pub fn write_bytes<W: Write>(out: &mut W, bytes: &[u8]) -> io::Result<()>
    ensures { Writes result (W.contents out.old) (W.contents out.new) bytes.now }
{
    let mut rest = bytes;
    for _ in 0..u64::MAX {
        if rest.is_empty() {
            return Ok(());
        }
        match out.write(rest) {
            Ok(0) => return Err(io::Error::from(ErrorKind::WriteZero)),
            Ok(n) => rest = &rest[n..],
            Err(e) => {
                if e.kind() != ErrorKind::Interrupted {
                    return Err(e);
                }
            }
        }
    }
    Err(io::Error::from(ErrorKind::TimedOut))
}

/// Writes what a value shows, of at most `LINE_BYTES`; a longer text is an error, and nothing is written.
pub fn write_line<W: Write, D: Display + Drop>(out: &mut W, line: D) -> io::Result<()>
    ensures { IfSome (D.output line) (Writes result (W.contents out.old) (W.contents out.new)) }
{
    let mut text = InlineText::<LINE_BYTES>::new();
    write!(text, "{line}")?;
    write_bytes(out, text.as_str().as_bytes())
}
