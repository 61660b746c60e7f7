ghost use Rattle.std.specs.Prelude.{List, ℕ, None, IfSome};
ghost use Rattle.streams.specs.Fronts.{Writes};
ghost use Rattle.workbench.specs.Scripts.{lines_of, MayPrintAll};

use crate::session::Workbench;
use std::alloc::Global;
use std::io;
use std::io::{BufRead, Write};
use streams::write_bytes;

/// The whole program: reads a script line by line, and writes what each line answers before it reads the next. Where
/// it fails, by reading, by writing or for want of memory even to say so, a front of what the script may print has been
/// written.
pub fn run<R: BufRead + Drop, W: Write>(heap: Global, script: R, out: &mut W) -> io::Result<()>
    ensures { IfSome (R.remaining script) (λ bytes.
        (text : List ℕ) × MayPrintAll None (lines_of bytes) text
        × Writes result (W.contents out.old) (W.contents out.new) text) }
{
    let mut workbench = Workbench::new();
    for line in script.split(heap, b'\n') {
        let line = line?;
        let text = workbench.answer(heap, line.as_slice())?;
        write_bytes(out, text.as_bytes())?;
    }
    Ok(())
}
