// The writer of cards: start, append and close, and whole runs of calls.
#![tactic(auto)]

mod calls;
mod runs;
mod seals;
mod writer;

pub use runs::{Call, Replayed, replay};
pub use writer::{Unclosed, Writer};
