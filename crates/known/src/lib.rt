// Bytes that are known beforehand, proved together, and the card among them.
#![tactic(auto)]

ghost use Rattle.std.specs.Prelude.{◌≡◌};
ghost use Rattle.cards.specs.Faults.{told};
ghost use Rattle.known.specs.Known.{bare_answer, bare_medium, KnownBytes};

use cards::CardFault;
use spoc_sealer::BenchSealer;
use writer::Writer;

const KEY: [u8; 16] = [1, 1, 1, 1, 1, 1, 1, 1, 2, 2, 2, 2, 2, 2, 2, 2];

const NUMBER: u64 = 0x0404_0404_0404_0404;

/// Writes the bench card without sheets, an example for pencil and paper (docs/cards.md), over the first 30
/// bytes of a medium, and answers its length.
///
/// A shorter medium is refused with 9 of layer 3, and stays; bytes beyond the 30 always stay.
///
/// The clause `known` has all bytes that are known beforehand, of permutations, cipher and cards, in one
/// statement.
#[tactic(auto, using(crate::proofs::Together::known_bytes))]
pub fn bench_card(medium: &mut [u8]) -> Result<usize, CardFault>
    ensures answer { told result ≡ bare_answer medium.old }
    ensures medium { medium.new ≡ bare_medium medium.old }
    ensures known { KnownBytes }
{
    let writer = Writer::<BenchSealer>::start(&KEY, NUMBER, medium)?;
    Ok(writer.close(medium)?)
}
