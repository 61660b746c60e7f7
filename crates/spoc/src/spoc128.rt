ghost use Rattle.std.specs.Prelude.{refl};
ghost use Rattle.spoc.specs.Spoc128.{spoc_128};
ghost use Rattle.spoc.specs.Starts.{sound_128};

use crate::loading::load_part;
use crate::suite::{Suite, SuiteModel};
use permutations::Light256;

/// SpoC-128 stands on sLiSCP-light-[256]: version 2, states of 32 bytes, a rate of 16 (docs/cipher.md).
pub type Spoc128 = Light256;

// Subblocks 0 and 2.
const RATE_PLACES: [usize; 16] = [0, 1, 2, 3, 4, 5, 6, 7, 16, 17, 18, 19, 20, 21, 22, 23];

// Subblocks 1 and 3.
const MASKED_PLACES: [usize; 16] = [8, 9, 10, 11, 12, 13, 14, 15, 24, 25, 26, 27, 28, 29, 30, 31];

impl SuiteModel for Light256 {
    ghost plan = { spoc_128 };

    ghost sound = { sound_128 };
}

impl Suite<32> for Light256 {
    const VERSION: u16 = 2;

    const RATE: usize = 16;

    ghost VERSION = { spoc_128.version };

    ghost RATE = { spoc_128.rate };

    fn rate_places() -> &'static [usize] {
        &RATE_PLACES
    }

    fn masked_places() -> &'static [usize] {
        &MASKED_PLACES
    }

    // A half of the nonce, a half of the key, and the other two.
    fn start(state: &mut [u8; 32], key: &[u8; 16], nonce: &[u8; 16]) {
        load_part(state, 0, &nonce[..8]);
        load_part(state, 8, &key[..8]);
        load_part(state, 16, &nonce[8..]);
        load_part(state, 24, &key[8..]);
    }

    ghost version_is = { refl };

    ghost rate_is = { refl };
}
