// The calls of a workbench script on cards: what each reads, makes and prints.
#![tactic(auto)]

mod front;
mod reading;
mod versions;
mod writing;

pub use reading::{FILLER, call_reader, scratch_word};
pub use versions::read_sealer;
pub use writing::Draft;
