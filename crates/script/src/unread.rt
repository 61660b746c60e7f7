ghost use Rattle.std.specs.Prelude.{◌≡◌, Some};
ghost use Rattle.script.specs.declared.unread.Unread.TheVariants.{Memory};
ghost use Rattle.script.specs.Reasons.{reason};

use crate::names::PermutationName;
use std::alloc::{AllocError, AllocFailed};
use std::fmt;

/// Why a line can't be read: each reason, which is printed after `unread: ` (docs/workbench.md).
#[derive(Clone, Copy, Debug, PartialEq, Eq)]
pub enum Unread {
    /// The first word is no call.
    UnknownCall,
    /// No permutation has that name.
    UnknownPermutation,
    /// The version is a number, but no sealer's.
    UnknownVersion,
    /// A word is wanted, and the line has ended.
    TooFewWords,
    /// All wanted words are read, and something follows.
    TooManyWords,
    /// A word is wanted, and an empty one is found.
    EmptyWord,
    /// In bytes, one digit is left after whole pairs.
    OddDigits,
    /// In bytes, a pair has what is no hexadecimal digit.
    WrongDigit,
    /// In a number, something is no decimal digit.
    NotANumber,
    /// A number has more than 64 bits.
    NumberTooLarge,
    /// A cell has more than 32 bits.
    CellTooLarge,
    /// An edition has more than 16 bits.
    EditionTooLarge,
    /// Another number of bytes than one is given.
    NotOneByte,
    /// A state of a permutation has `expected` bytes, and `found` are given.
    StateLength {
        of: PermutationName,
        expected: usize,
        found: usize,
    },
    /// A line of a card is asked for where no card is being written.
    NoCard,
    /// Another call is asked for while a card is being written.
    CardOpen,
    /// There is no memory for what the line asks.
    Memory,
}

impl fmt::Display for Unread {
    ghost output = { λ u. Some (reason u) };

    fn fmt<W: fmt::Write>(&self, f: &mut fmt::Formatter<W>) -> fmt::Result {
        match self {
            Unread::UnknownCall => f.write_str("unknown call"),
            Unread::UnknownPermutation => f.write_str("unknown permutation"),
            Unread::UnknownVersion => f.write_str("unknown version"),
            Unread::TooFewWords => f.write_str("too few words"),
            Unread::TooManyWords => f.write_str("too many words"),
            Unread::EmptyWord => f.write_str("words are separated by one space"),
            Unread::OddDigits => f.write_str("odd number of digits"),
            Unread::WrongDigit => f.write_str("not a hexadecimal digit"),
            Unread::NotANumber => f.write_str("not a decimal number"),
            Unread::NumberTooLarge => f.write_str("a number of more than 64 bits"),
            Unread::CellTooLarge => f.write_str("a number of more than 32 bits"),
            Unread::EditionTooLarge => f.write_str("a number of more than 16 bits"),
            Unread::NotOneByte => f.write_str("not one byte"),
            Unread::StateLength {
                of,
                expected,
                found,
            } => { write!(f, "a state of {of} has {expected} bytes, not {found}") }
            Unread::NoCard => f.write_str("no card is being written"),
            Unread::CardOpen => f.write_str("a card is being written"),
            Unread::Memory => f.write_str("out of memory"),
        }
    }
}

// Of what found no memory the reason says no more, so neither From keeps it.
impl From<AllocError> for Unread {
    ghost from_gives = { λ _ r. r ≡ Memory };

    fn from(_e: AllocError) -> Unread {
        Unread::Memory
    }
}

impl<T: Drop> From<AllocFailed<T>> for Unread {
    ghost from_gives = { λ _ r. r ≡ Memory };

    fn from(_e: AllocFailed<T>) -> Unread {
        Unread::Memory
    }
}
