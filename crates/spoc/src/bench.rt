ghost use Rattle.std.specs.Prelude.{refl};
ghost use Rattle.spoc.specs.Bench.{bench_plan};
ghost use Rattle.spoc.specs.Starts.{bench_sound};

use crate::loading::load_part;
use crate::suite::{Suite, SuiteModel};
use permutations::Bench;

const RATE_PLACES: [usize; 8] = [16, 17, 18, 19, 20, 21, 22, 23];

const MASKED_PLACES: [usize; 8] = [0, 1, 2, 3, 4, 5, 6, 7];

impl SuiteModel for Bench {
    ghost plan = { bench_plan };

    ghost sound = { bench_sound };
}

// The bench suite: quarter 2 is the rate and quarter 0 is masked.
impl Suite<32> for Bench {
    const VERSION: u16 = 9;

    const RATE: usize = 8;

    ghost VERSION = { bench_plan.version };

    ghost RATE = { bench_plan.rate };

    fn rate_places() -> &'static [usize] {
        &RATE_PLACES
    }

    fn masked_places() -> &'static [usize] {
        &MASKED_PLACES
    }

    // The key and then the nonce. Inlined, since without a block the start is most of a call.
    #[inline(always)]
    fn start(state: &mut [u8; 32], key: &[u8; 16], nonce: &[u8; 16]) {
        load_part(state, 0, key);
        load_part(state, 16, nonce);
    }

    ghost version_is = { refl };

    ghost rate_is = { refl };
}
