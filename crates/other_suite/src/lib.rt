// A suite that is none of the three, made as docs/cipher.md says, and tests that the same code serves it.
#![tactic(auto)]

mod ring;
mod suite;
#[cfg(test)]
mod tests;

pub use ring::Ring;
