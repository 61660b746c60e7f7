//! Reading and writing that say what is left where a call fails.
#![tactic(auto)]

mod reading;
#[cfg(test)]
mod tests;
mod writing;

pub use reading::read_front;
pub use writing::{LINE_BYTES, write_bytes, write_line};
