// SpoC over every suite: the suite rule, seal and open, and three suites.
#![tactic(auto)]

mod bench;
mod claims;
mod known;
mod loading;
mod mode;
mod passes;
mod sealing;
mod spoc128;
mod spoc64;
mod suite;

pub use claims::seal_and_open;
pub use known::{BenchSealed, bench_example};
pub use sealing::{open, seal, test};
pub use spoc64::Spoc64;
pub use spoc128::Spoc128;
pub use suite::{Suite, SuiteModel};
