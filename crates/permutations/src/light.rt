ghost use Rattle.std.specs.Prelude.{◌≡◌, ◌<◌, ◌≤◌, take, refl, MatchResult};
ghost use Rattle.std.proofs.Common.{lit≤, le_trans};
ghost use Rattle.permutations.specs.Light.{light};
ghost use Rattle.permutations.specs.declared.constants.TheConstants.{STEPS};
ghost use Rattle.permutations.specs.Loading;

use crate::constants::{STEPS, StepConstants};
use crate::fault::TooManySteps;
use crate::permutation::{Bijection, Permutation};
use crate::steps::State;
use crate::width::{Bits24, Bits32, StateBytes, Width};
use std::marker::PhantomData;

/// sLiSCP-light over words of a width: `Light192` and `Light256`. Its full number of steps is 18
/// (docs/permutations.md).
#[derive_where(Clone, Copy)]
pub struct Light<W>(pub PhantomData<W>);

/// sLiSCP-light-[192]: a state of 24 bytes (docs/permutations.md).
pub type Light192 = Light<Bits24>;

/// sLiSCP-light-[256]: a state of 32 bytes (docs/permutations.md).
pub type Light256 = Light<Bits32>;

// The constants of the first s steps, if there are so many.
fn constants_of<W: Width>(s: usize) -> Result<&'static [StepConstants], TooManySteps>
    ensures { MatchResult result (λ ks. (s ≤ STEPS) × (ks.now ≡ take s W.table)) (λ _. STEPS < s) }
{
    W::constants().get(..s).ok_or(TooManySteps)
}

impl<W: Width> Bijection for Light<W> {
    ghost meaning = { light W.BYTES W.ROUNDS W.table };

    ghost bijective = { Loading.bijective W.BYTES W.ROUNDS W.table W.small W.some
        (le_trans W.most (lit≤ tt)) };
}

impl<const B: usize, W: StateBytes<B>> Permutation<B> for Light<W> {
    const STEPS: usize = STEPS;

    ghost STEPS = { STEPS };

    #[tactic(auto, unfolding(crate::specs::Light::forward_by))]
    fn forward_by(state: &mut [u8; B], s: usize) -> Result<(), TooManySteps> {
        let constants = constants_of::<W>(s)?;
        State::<W>::load(state).forward(constants).store(state);
        Ok(())
    }

    #[tactic(auto, unfolding(crate::specs::Light::backward_by))]
    fn back_by(state: &mut [u8; B], s: usize) -> Result<(), TooManySteps> {
        let constants = constants_of::<W>(s)?;
        State::<W>::load(state).back(constants).store(state);
        Ok(())
    }

    ghost sized = { W.sized };

    ghost steps_is = { refl };
}
