ghost use Rattle.std.specs.Prelude.{◌≡◌, ℕ};
ghost use Rattle.spoc.specs.Suite.{Plan, Sound};

use permutations::{Bijection, Permutation};

/// What a suite means: how SpoC stands on its permutation, by the suite rule (docs/cipher.md).
pub trait SuiteModel: Bijection {
    ghost plan: { Plan };

    ghost sound: { Sound Self.Bijection.meaning plan };
}

/// A permutation of states of B bytes that also says how SpoC stands on it (docs/cipher.md).
pub trait Suite<const B: usize>: Permutation<B> + SuiteModel {
    /// The number that a card's header has for it. Let no other suite have it.
    const VERSION: u16;

    /// How many bytes a block and a tag have, 1 to 16.
    const RATE: usize;

    ghost VERSION: { ℕ };

    ghost RATE: { ℕ };

    /// Where the state is xored into a block: as many places as the rate, in the order of a block's bytes;
    /// the first takes the control byte. No constant: a ghost value of a reference can't be written in an
    /// impl.
    fn rate_places() -> &'static [usize]
        ensures { result.now ≡ Self.SuiteModel.plan.rate_places };

    /// Where a block goes into the state, and where the tag is read: as many other places. No constant
    /// either.
    fn masked_places() -> &'static [usize]
        ensures { result.now ≡ Self.SuiteModel.plan.masked_places };

    /// Makes of a state, whatever it holds, the one that a key and a nonce start from. In place, so that no
    /// copy of it is left.
    fn start(state: &mut [u8; B], key: &[u8; 16], nonce: &[u8; 16])
        ensures { state.new ≡
            Self.SuiteModel.plan.begin Self.Bijection.meaning.forward key.now nonce.now };

    ghost version_is: { VERSION ≡ Self.SuiteModel.plan.version };

    ghost rate_is: { RATE ≡ Self.SuiteModel.plan.rate };
}
