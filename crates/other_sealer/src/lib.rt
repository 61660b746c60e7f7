// A sealer that is none of SpoC's, made as docs/sealers.md says, and tests that the same code serves it.
#![tactic(auto)]

mod first_byte;
#[cfg(test)]
mod tests;

pub use first_byte::FirstByte;
