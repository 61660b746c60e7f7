ghost use Rattle.std.specs.Prelude.{◌≡◌, length, refl};
ghost use Rattle.permutations.specs.Bench.{forward, backward, bench};
ghost use Rattle.permutations.specs.Bytes.{xors};
ghost use Rattle.permutations.specs.Benches;

use crate::fault::TooManySteps;
use crate::permutation::{Bijection, Permutation};

// The bytes of a xored with those of b.
fn xor_into(a: &[u8], b: &[u8], out: &mut [u8])
    requires { (length a.now ≡ length out.old) × (length b.now ≡ length out.old) }
    ensures { out.new ≡ xors a.now b.now }
{
    // By index: a proof forgets what is written through zip.
    for (i, x) in out.iter_mut().enumerate() {
        *x = a[i] ^ b[i];
    }
}

// The one step of the bench permutation.
fn step(state: &mut [u8; 32])
    ensures { state.new ≡ forward state.old }
{
    let q = *state;
    xor_into(&q[24..32], &q[0..8], &mut state[0..8]);
    state[8..32].copy_from_slice(&q[0..24]);
}

// The same step undone.
fn unstep(state: &mut [u8; 32])
    ensures { state.new ≡ backward state.old }
{
    let q = *state;
    xor_into(&q[0..8], &q[8..16], &mut state[24..32]);
    state[0..24].copy_from_slice(&q[8..32]);
}

/// The bench permutation: a state of 32 bytes in four quarters, and one step, for pencil and paper
/// (docs/permutations.md).
#[derive(Clone, Copy)]
pub struct Bench;

impl Bijection for Bench {
    ghost meaning = { bench };

    ghost bijective = { Benches.bijective };
}

impl Permutation<32> for Bench {
    const STEPS: usize = 1;

    ghost STEPS = { 1 };

    fn forward_by(state: &mut [u8; 32], s: usize) -> Result<(), TooManySteps> {
        match s {
            0 => {}
            1 => step(state),
            _ => return Err(TooManySteps),
        }
        Ok(())
    }

    fn back_by(state: &mut [u8; 32], s: usize) -> Result<(), TooManySteps> {
        match s {
            0 => {}
            1 => unstep(state),
            _ => return Err(TooManySteps),
        }
        Ok(())
    }

    ghost sized = { refl };

    ghost steps_is = { refl };
}
