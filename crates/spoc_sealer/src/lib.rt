// SpoC over every suite is a sealer.
#![tactic(auto)]

mod suites;

pub use suites::{BenchSealer, Spoc, Spoc64Sealer, Spoc128Sealer};
