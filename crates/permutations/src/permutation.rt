ghost use Rattle.std.specs.Prelude.{◌≡◌, ℕ};
ghost use Rattle.permutations.specs.Permutation.{Bytes, Perm, Bijective, Undo, UndoWhole, steps_answer, forward_state, back_state, there_answer};

use crate::fault::TooManySteps;

/// What a permutation means: the size of its states, how many steps it has, and what forward and back by each
/// number of steps make of a state (docs/permutations.md).
pub trait Bijection {
    ghost meaning: { Perm };

    /// The law: forward and back keep to states, and undo each other by each number of steps.
    ghost bijective: { Bijective meaning };
}

/// A permutation of states of B bytes, made of steps that are numbered from 0 (docs/permutations.md).
pub trait Permutation<const B: usize>: Bijection {
    /// The full number: how many steps there are.
    const STEPS: usize;

    ghost STEPS: { ℕ };

    /// Takes the first s steps, 0 to s - 1; of none the state stays. Where there are not so many steps, this
    /// is refused with 21, and the state stays.
    fn forward_by(state: &mut [u8; B], s: usize) -> Result<(), TooManySteps>
        ensures answer { result ≡ steps_answer Self.Bijection.meaning s }
        ensures state { state.new ≡ forward_state Self.Bijection.meaning s state.old };

    /// Undoes the first s steps, from s - 1 down to 0. Where there are not so many, this is refused with 21,
    /// and the state stays.
    fn back_by(state: &mut [u8; B], s: usize) -> Result<(), TooManySteps>
        ensures answer { result ≡ steps_answer Self.Bijection.meaning s }
        ensures state { state.new ≡ back_state Self.Bijection.meaning s state.old };

    // B is the size that is meant, and STEPS the full number.
    ghost sized: { B ≡ Self.Bijection.meaning.size };

    ghost steps_is: { STEPS ≡ Self.Bijection.meaning.full };

    /// Takes all steps. Refuses nothing.
    final fn forward(state: &mut [u8; B])
        ensures { state.new ≡ Self.Bijection.meaning.forward state.old }
    {
        // There are so many, so no refusal can come.
        let _ = Self::forward_by(state, Self::STEPS);
    }

    /// Undoes all steps, the last first. Refuses nothing.
    final fn back(state: &mut [u8; B])
        ensures { state.new ≡ Self.Bijection.meaning.back state.old }
    {
        // There are so many, so no refusal can come.
        let _ = Self::back_by(state, Self::STEPS);
    }
}

// An array of bytes holds bytes: generic code calls this to know it.
pub(crate) fn holds_bytes<const B: usize>(state: [u8; B])
    ensures { Bytes B state.entry }
{}

/// Forward by s, whose state is the answer, and then back by s, which leaves the state as it was; 21 where
/// there are not so many steps (docs/permutations.md). For every permutation each of forward by s and back by
/// s undoes the other on every state, and so do forward and back.
pub fn there_and_back<const B: usize, P: Permutation<B>>(
    state: &mut [u8; B],
    s: usize,
) -> Result<[u8; B], TooManySteps>
    ensures there { result ≡ there_answer P.Bijection.meaning s state.old }
    ensures stays { state.new ≡ state.old }
    ensures undo { Undo P.Bijection.meaning }
    ensures whole { UndoWhole P.Bijection.meaning }
{
    holds_bytes(*state);
    P::forward_by(state, s)?;
    let there = *state;
    P::back_by(state, s)?;
    Ok(there)
}
