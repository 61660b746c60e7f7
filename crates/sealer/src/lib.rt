// What a sealer of cards is: a cipher that seals, opens and tests under its laws.
#![tactic(auto)]

mod fault;
mod lengths;
mod sealer;

pub use fault::SealFault;
pub use lengths::{MOST_TEXT, ask_lengths};
pub use sealer::{SCRATCH_BYTES, Sealer};
