ghost use Rattle.std.specs.Prelude.{◌≡◌, ℕ, ◌-◌, ◌*◌, ◌^◌, ◌<◌, ◌≤◌, List, length, refl};
ghost use Rattle.std.specs.List.{AllByRecursion};
ghost use Rattle.permutations.specs.declared.constants.StepConstants.{StepConstants};
ghost use Rattle.permutations.specs.declared.constants.TheConstants.{STEPS};
ghost use Rattle.permutations.specs.Constants.{constants_192, constants_256};
ghost use Rattle.permutations.specs.Simeck.{turned};
ghost use Rattle.permutations.specs.Steps.{Small};
ghost use Rattle.permutations.specs.Lights.{small_192, long_192, small_256, long_256};
ghost use Rattle.std.proofs.Common.{lit≤};

use crate::constants::{CONSTANTS_192, CONSTANTS_256, STEPS, StepConstants};

/// A width of words, with the rounds of its box and the constants of each step (docs/permutations.md).
pub trait Width {
    /// The bytes of a word, at least one and at most four.
    const BYTES: usize;

    ghost BYTES: { ℕ };

    /// The rounds of a box, at most 8.
    const ROUNDS: u32;

    ghost ROUNDS: { ℕ };

    /// A word of ones.
    const ONES: u32;

    ghost ONES: { ℕ };

    ghost table: { List StepConstants };

    // This law and the next two stand above the functions, so that the law of a permutation may name them.
    ghost some: { 1 ≤ BYTES };

    ghost most: { BYTES ≤ 4 };

    // Step constants are bytes.
    ghost small: { AllByRecursion Small table };

    /// The constants of each step, the first first.
    fn constants() -> &'static [StepConstants; STEPS]
        ensures { result.now ≡ table };

    /// A word turned left by 1 to 8 bits. Each width has its own: the project's rule is that a word turns by
    /// the rotate method, and one of 24 bits needs a copy of itself beside it for that.
    fn turn(x: u32, by: u32) -> u32
        requires { (x < 2 ^ (8 * BYTES)) × ((1 ≤ by) × (by ≤ 8)) }
        ensures { result ≡ turned (8 * BYTES) by x };

    // A round constant is a byte, so there are at most 8 rounds.
    ghost few: { ROUNDS ≤ 8 };

    ghost ones: { ONES ≡ 2 ^ (8 * BYTES) - 1 };

    ghost long: { length table ≡ STEPS };
}

/// The width whose state has B bytes: eight words.
pub trait StateBytes<const B: usize>: Width {
    // B is the size that is meant.
    ghost sized: { B ≡ Self.Width.BYTES * 8 };
}

/// The words of sLiSCP-light-[192]: 24 bits, and boxes of 6 rounds (docs/permutations.md).
pub struct Bits24;

impl Width for Bits24 {
    const BYTES: usize = 3;

    const ROUNDS: u32 = 6;

    const ONES: u32 = 0xff_ffff;

    ghost BYTES = { 3 };

    ghost ROUNDS = { 6 };

    ghost ONES = { 0xff_ffff };

    ghost table = { constants_192 };

    ghost some = { lit≤ tt };

    ghost most = { lit≤ tt };

    ghost few = { lit≤ tt };

    ghost ones = { refl };

    ghost long = { long_192 };

    ghost small = { small_192 };

    #[tactic(auto, unfolding(crate::specs::Constants::constants_192))]
    fn constants() -> &'static [StepConstants; STEPS] {
        &CONSTANTS_192
    }

    // With its own first byte after it, the word turns as one of 32 bits.
    fn turn(x: u32, by: u32) -> u32 {
        let twice = (x << 8) | (x >> 16);
        twice.rotate_left(by) >> 8
    }
}

impl StateBytes<24> for Bits24 {
    ghost sized = { refl };
}

/// The words of sLiSCP-light-[256]: 32 bits, and boxes of 8 rounds (docs/permutations.md).
pub struct Bits32;

impl Width for Bits32 {
    const BYTES: usize = 4;

    const ROUNDS: u32 = 8;

    const ONES: u32 = 0xffff_ffff;

    ghost BYTES = { 4 };

    ghost ROUNDS = { 8 };

    ghost ONES = { 0xffff_ffff };

    ghost table = { constants_256 };

    ghost some = { lit≤ tt };

    ghost most = { lit≤ tt };

    ghost few = { lit≤ tt };

    ghost ones = { refl };

    ghost long = { long_256 };

    ghost small = { small_256 };

    #[tactic(auto, unfolding(crate::specs::Constants::constants_256))]
    fn constants() -> &'static [StepConstants; STEPS] {
        &CONSTANTS_256
    }

    fn turn(x: u32, by: u32) -> u32 {
        x.rotate_left(by)
    }
}

impl StateBytes<32> for Bits32 {
    ghost sized = { refl };
}
