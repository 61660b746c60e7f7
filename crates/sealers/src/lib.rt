// The sealers that programs know, by the versions that a card's header has.
#![tactic(auto)]

mod name;

pub use name::{NoSuchVersion, SealerName};
