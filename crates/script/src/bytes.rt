ghost use Rattle.std.specs.Prelude.{◌≡◌, ◌<◌, IfOk, Some, vec_items};
ghost use Rattle.script.specs.Hex.{hex_digit, byte_of, pairs, bytes_of, byte_alone, hex_text, ReadsBack};
ghost use Rattle.script.specs.Reasons.{Holds};

use crate::unread::Unread;
use std::alloc::Global;
use std::fmt;

// The value of a hexadecimal digit, in either case.
fn digit_value(b: u8) -> Result<u8, Unread>
    ensures value { result ≡ hex_digit b }
    ensures bound { IfOk result (λ d. d < 16) }
{
    let digit = char::from(b).to_digit(16).ok_or(Unread::WrongDigit)?;
    Ok(digit as u8)
}

// The byte of two digits.
fn read_pair(high: u8, low: u8) -> Result<u8, Unread>
    ensures { result ≡ byte_of (hex_digit high) (hex_digit low) }
{
    Ok(digit_value(high)? * 16 + digit_value(low)?)
}

// The bytes of pairs of digits.
#[tactic(auto, using(crate::proofs::Pairing::pair_more))]
fn read_pairs(heap: Global, digits: &[u8]) -> Result<Vec<u8>, Unread>
    ensures { Holds vec_items result (pairs digits.now) }
{
    let mut bytes = Vec::new(heap);
    for pair in digits.chunks(2) {
        let [high, low] = pair else {
            return Err(Unread::OddDigits);
        };
        bytes.push(read_pair(*high, *low)?)?;
    }
    Ok(bytes)
}

/// Reads hexadecimal pairs, in either case, and `-` for no bytes (docs/workbench.md). Bytes that are printed
/// read back: the clause `law`.
///
/// An empty word is `EmptyWord`; else pair by pair the first no is the answer: `WrongDigit`, or `OddDigits`
/// where one digit is left, whatever it is. Where there is no memory for the bytes, the answer is `Memory`.
#[tactic(auto, using(crate::proofs::Back::reads_back))]
pub fn read_bytes(heap: Global, word: &[u8]) -> Result<Vec<u8>, Unread>
    ensures bytes { Holds vec_items result (bytes_of word.now) }
    ensures law { ReadsBack }
{
    match word {
        [] => Err(Unread::EmptyWord),
        b"-" => Ok(Vec::new(heap)),
        _ => read_pairs(heap, word),
    }
}

/// Reads one byte, a pair of hexadecimal digits (docs/workbench.md). It refuses what `read_bytes` does, and
/// another number of bytes than one as `NotOneByte`.
pub fn read_byte(heap: Global, word: &[u8]) -> Result<u8, Unread>
    ensures { Holds (λ b. b) result (byte_alone (bytes_of word.now)) }
{
    match read_bytes(heap, word)?.as_slice() {
        [b] => Ok(*b),
        _ => Err(Unread::NotOneByte),
    }
}

/// Bytes as they are printed: pairs of hexadecimal digits in capitals, and `-` for none (docs/workbench.md).
#[derive(Clone, Copy)]
pub struct Hex<'a>(pub &'a [u8]);

impl fmt::Display for Hex<'_> {
    ghost output = { λ h. Some (hex_text h.0.now) };

    #[tactic(auto, using(crate::proofs::Printing::printed_more))]
    fn fmt<W: fmt::Write>(&self, f: &mut fmt::Formatter<W>) -> fmt::Result {
        if self.0.is_empty() {
            return f.write_str("-");
        }
        for &b in self.0 {
            write!(f, "{b:02X}")?;
        }
        Ok(())
    }
}
