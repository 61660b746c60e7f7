// The words of a workbench script: what a line holds, read word by word, and bytes as they are printed.
#![tactic(auto)]

mod bytes;
mod line;
mod names;
mod number;
#[cfg(test)]
mod tests;
mod unread;
mod words;

pub use bytes::{Hex, read_byte, read_bytes};
pub use line::{is_silent, without_return};
pub use names::{CallName, CipherCall, PermutationCall, PermutationName, ReaderCall, WriterCall};
pub use number::{read_cell, read_edition, read_number};
pub use unread::Unread;
pub use words::Words;
