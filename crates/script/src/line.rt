ghost use Rattle.std.specs.Prelude.{◌≡◌};
ghost use Rattle.script.specs.Lines.{silent, trimmed};

/// A line without one carriage return at its end, if it has one there (docs/workbench.md).
#[tactic(auto, using(crate::proofs::Trimming::trimmed_rest))]
pub fn without_return(line: &[u8]) -> &[u8]
    ensures { result.now ≡ trimmed line.now }
{
    line.strip_suffix(b"\r").unwrap_or(line)
}

/// Whether a line asks nothing: it is empty, or a comment, which begins with `#` (docs/workbench.md).
pub fn is_silent(line: &[u8]) -> bool
    ensures { result ≡ silent line.now }
{
    matches!(line, [] | [b'#', ..])
}
