ghost use Rattle.std.specs.Prelude.{◌≡◌, ◌+◌, ◌*◌, ◌^◌, ◌≤◌, All, IfSome, IfNone};
ghost use Rattle.std.specs.Char.{is_ascii_digit};
ghost use Rattle.std.specs.List.{list_all};
ghost use Rattle.script.specs.Numbers.{value_after, number_of, number_below, cell_of, edition_of};

use crate::unread::Unread;

// Whether there are digits alone.
fn are_digits(word: &[u8]) -> bool
    ensures { result ≡ list_all is_ascii_digit word.now }
{
    word.iter().all(u8::is_ascii_digit)
}

// A number with one digit more at its end, where that fits 64 bits.
fn with_digit(number: u64, digit: u8) -> Option<u64>
    ensures fits { IfSome result (λ n. n ≡ number * 10 + digit) }
    ensures none { IfNone result (2 ^ 64 ≤ number * 10 + digit) }
{
    number.checked_mul(10)?.checked_add(u64::from(digit))
}

// The value of digits, where it fits 64 bits.
fn value_of(digits: &[u8]) -> Option<u64>
    requires { All (λ b. 48 ≤ b) digits.now }
    ensures fits { IfSome result (λ n. n ≡ value_after 0 digits.now) }
    ensures none { IfNone result (2 ^ 64 ≤ value_after 0 digits.now) }
{
    digits
        .iter()
        .try_fold(0, |number, b| with_digit(number, *b - b'0'))
}

// The value of a word of digits, where it fits 64 bits; else the reason is the one given.
fn read_digits(word: &[u8], too_large: Unread) -> Result<u64, Unread>
    ensures { result ≡ number_below (2 ^ 64) too_large word.now }
{
    if word.is_empty() {
        return Err(Unread::EmptyWord);
    }
    if !are_digits(word) {
        return Err(Unread::NotANumber);
    }
    value_of(word).ok_or(too_large)
}

/// Reads a decimal number of at most 64 bits; zeros in front don't count (docs/workbench.md).
///
/// An empty word is `EmptyWord`, one that has anything but digits `NotANumber`, and a larger number
/// `NumberTooLarge`.
pub fn read_number(word: &[u8]) -> Result<u64, Unread>
    ensures { result ≡ number_of word.now }
{
    read_digits(word, Unread::NumberTooLarge)
}

/// Reads a cell, a number of at most 32 bits (docs/workbench.md): as `read_number`, but a larger number is
/// `CellTooLarge`.
///
/// Not one function with `read_edition`: over any `TryFrom<u64>` the bits would have to be a law of a trait.
pub fn read_cell(word: &[u8]) -> Result<u32, Unread>
    ensures { result ≡ cell_of word.now }
{
    let number = read_digits(word, Unread::CellTooLarge)?;
    u32::try_from(number).ok().ok_or(Unread::CellTooLarge)
}

/// Reads an edition, a number of at most 16 bits (docs/workbench.md): as `read_number`, but a larger number
/// is `EditionTooLarge`.
pub fn read_edition(word: &[u8]) -> Result<u16, Unread>
    ensures { result ≡ edition_of word.now }
{
    let number = read_digits(word, Unread::EditionTooLarge)?;
    u16::try_from(number).ok().ok_or(Unread::EditionTooLarge)
}
