ghost use Rattle.std.specs.Prelude.{◌≡◌, ◌∷◌, replicate};
ghost use Rattle.spoc.specs.Known.{eight, BenchExamples};

use crate::sealing::seal;
use permutations::Bench;

/// A message of eight bytes, sealed under the bench suite.
#[derive(Clone, Copy)]
pub struct BenchSealed {
    /// The message, sealed.
    pub ciphertext: [u8; 8],
    /// The tag, as long as the suite's rate.
    pub tag: [u8; 8],
}

/// Seals eight bytes 0x20 with eight bytes 0x10 as data under the bench suite, an example for pencil and
/// paper (docs/cipher.md).
///
/// The clause `examples` has all bench examples of that page.
pub fn bench_example() -> BenchSealed
    ensures ciphertext { result.ciphertext ≡ eight 0x21 }
    ensures tag { result.tag ≡ 0x1f ∷ replicate 7 0x3f }
    ensures examples { BenchExamples }
{
    let key = [1, 1, 1, 1, 1, 1, 1, 1, 2, 2, 2, 2, 2, 2, 2, 2];
    let nonce = [4, 4, 4, 4, 4, 4, 4, 4, 8, 8, 8, 8, 8, 8, 8, 8];
    let mut ciphertext = [0; 8];
    let mut tag = [0; 8];
    // All five lengths are right, so no question gets a no: the clauses say what is sealed.
    let _ = seal::<32, Bench>(
        &key,
        &nonce,
        &[0x10; 8],
        &[0x20; 8],
        &mut ciphertext,
        &mut tag,
    );
    BenchSealed { ciphertext, tag }
}
