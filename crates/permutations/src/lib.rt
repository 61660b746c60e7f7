// The permutations under the cipher: what a permutation is, sLiSCP-light-[192] and -[256], and the bench
// permutation.
#![tactic(auto)]

mod bench;
mod constants;
mod fault;
mod known;
mod light;
mod page;
mod permutation;
mod simeck;
mod steps;
mod width;

pub use bench::Bench;
pub use fault::{PageFault, TooManySteps};
pub use known::{FirstSteps, first_steps};
pub use light::{Light, Light192, Light256};
pub use page::diffusion_page;
pub use permutation::{Bijection, Permutation, there_and_back};
