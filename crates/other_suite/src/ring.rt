ghost use Rattle.std.specs.Prelude.{◌≡◌, ◌≤◌, ◌++◌, length, take, drop, refl};
ghost use Rattle.permutations.specs.Bytes.{xors};
ghost use Rattle.other_suite.specs.Ring.{mixed, ring};
ghost use Rattle.other_suite.specs.Rings;

use permutations::{Bijection, Permutation, TooManySteps};

// Bytes xored into the front of a state.
#[tactic(auto, using(crate::proofs::Fronts::front_more), unfolding(permutations::specs::Bytes::xors))]
pub(crate) fn xor_front(bytes: &[u8], state: &mut [u8; 23])
    requires { length bytes.now ≤ 23 }
    ensures { state.new ≡ xors (take (length bytes.now) state.old) bytes.now ++ drop (length bytes.now) state.old }
{
    // By index: a proof forgets what is written through zip.
    for (i, x) in bytes.iter().enumerate() {
        state[i] ^= *x;
    }
}

// Each of the first 11 bytes xored with the byte 11 places on, which undoes itself.
#[tactic(auto, unfolding(crate::specs::Ring::mixed))]
fn mix(state: &mut [u8; 23])
    ensures { state.new ≡ mixed state.old }
{
    let s = *state;
    xor_front(&s[11..22], state);
}

/// The ring permutation (docs/cipher.md): a state of 23 bytes, and two steps, a turn by 11 places and mixing.
#[derive(Clone, Copy)]
pub struct Ring;

impl Bijection for Ring {
    ghost meaning = { ring };

    ghost bijective = { Rings.bijective };
}

impl Permutation<23> for Ring {
    const STEPS: usize = 2;

    ghost STEPS = { 2 };

    #[tactic(auto, unfolding(crate::specs::Ring::turned))]
    fn forward_by(state: &mut [u8; 23], s: usize) -> Result<(), TooManySteps> {
        match s {
            0 => {}
            1 => state.rotate_right(11),
            2 => {
                state.rotate_right(11);
                mix(state);
            }
            _ => return Err(TooManySteps),
        }
        Ok(())
    }

    #[tactic(auto, unfolding(crate::specs::Ring::turned))]
    fn back_by(state: &mut [u8; 23], s: usize) -> Result<(), TooManySteps> {
        match s {
            0 => {}
            1 => state.rotate_left(11),
            2 => {
                mix(state);
                state.rotate_left(11);
            }
            _ => return Err(TooManySteps),
        }
        Ok(())
    }

    ghost sized = { refl };

    ghost steps_is = { refl };
}
