ghost use Rattle.std.specs.Prelude.{◌≡◌, take, drop, replicate, refl};
ghost use Rattle.permutations.specs.Bytes.{xors};
ghost use Rattle.spoc.specs.Feed.{put};
ghost use Rattle.spoc.specs.Spoc64.{masked_64, loaded, spoc_64};
ghost use Rattle.permutations.specs.Lights.{bijective_192};
ghost use Rattle.spoc.specs.Starts.{sound_64};

use crate::loading::load_part;
use crate::suite::{Suite, SuiteModel};
use permutations::{Light192, Permutation};

/// SpoC-64 stands on sLiSCP-light-[192]: version 1, states of 24 bytes, a rate of 8 (docs/cipher.md).
pub type Spoc64 = Light192;

// The first four bytes of subblocks 0 and 2.
const RATE_PLACES: [usize; 8] = [0, 1, 2, 3, 12, 13, 14, 15];

// The first four bytes of subblocks 1 and 3.
const MASKED_PLACES: [usize; 8] = [6, 7, 8, 9, 18, 19, 20, 21];

// Key and the first half of the nonce, before forward: a subblock is four bytes of the nonce and two of the
// key, or six of the key.
fn load_state(state: &mut [u8; 24], key: &[u8; 16], nonce: &[u8; 16])
    ensures { state.new ≡ loaded (take 8 key.now) (drop 8 key.now) (take 8 nonce.now) }
{
    load_part(state, 0, &nonce[..4]);
    load_part(state, 4, &key[6..8]);
    load_part(state, 6, &key[..6]);
    load_part(state, 12, &nonce[4..8]);
    load_part(state, 16, &key[14..]);
    load_part(state, 18, &key[8..14]);
}

// The second half of the nonce goes into the masked places.
fn mask_nonce(state: &mut [u8; 24], nonce: &[u8; 16])
    ensures { state.new ≡ xors state.old (put masked_64 (drop 8 nonce.now) (replicate 24 0)) }
{
    for (place, byte) in MASKED_PLACES.iter().zip(&nonce[8..]) {
        state[*place] ^= *byte;
    }
}

impl SuiteModel for Light192 {
    ghost plan = { spoc_64 };

    ghost sound = { sound_64 bijective_192 };
}

impl Suite<24> for Light192 {
    const VERSION: u16 = 1;

    const RATE: usize = 8;

    ghost VERSION = { spoc_64.version };

    ghost RATE = { spoc_64.rate };

    fn rate_places() -> &'static [usize] {
        &RATE_PLACES
    }

    fn masked_places() -> &'static [usize] {
        &MASKED_PLACES
    }

    fn start(state: &mut [u8; 24], key: &[u8; 16], nonce: &[u8; 16]) {
        load_state(state, key, nonce);
        Light192::forward(state);
        mask_nonce(state, nonce);
    }

    ghost version_is = { refl };

    ghost rate_is = { refl };
}
