ghost use Rattle.std.specs.Prelude.{◌≡◌};
ghost use Rattle.permutations.specs.Known.{first_192, first_256, KnownStates};

use crate::light::{Light192, Light256};
use crate::permutation::Permutation;

/// The state after step 0 from zeros, of both sLiSCP-light permutations.
#[derive(Clone, Copy)]
pub struct FirstSteps {
    /// The state of sLiSCP-light-[192].
    pub light192: [u8; 24],
    /// The state of sLiSCP-light-[256].
    pub light256: [u8; 32],
}

/// Forward by 1 from zeros; the published test vectors have the same states (docs/permutations.md).
pub fn first_steps() -> FirstSteps
    ensures light192 { result.light192 ≡ first_192 }
    ensures light256 { result.light256 ≡ first_256 }
    ensures states { KnownStates }
{
    // Each has 18 steps, so no refusal can come.
    let mut light192 = [0; 24];
    let _ = Light192::forward_by(&mut light192, 1);
    let mut light256 = [0; 32];
    let _ = Light256::forward_by(&mut light256, 1);
    FirstSteps { light192, light256 }
}
