ghost use Rattle.spoc.specs.Sealing.{spoc};
ghost use Rattle.spoc.proofs.Law.{spoc_laws};

use permutations::Bench;
use sealer::{SealFault, Sealer};
use spoc::{Spoc64, Spoc128, Suite, open, seal, test};
use std::marker::PhantomData;

/// SpoC over a suite on states of B bytes, as a sealer of cards (docs/cipher.md): its version is the suite's
/// and its width the suite's rate.
///
/// No value of it is made: writer and reader take it as a type.
#[derive(Drop)]
pub struct Spoc<const B: usize, S> {
    suite: PhantomData<S>,
}

/// SpoC-64, version 1: tags of 8 bytes.
pub type Spoc64Sealer = Spoc<24, Spoc64>;

/// SpoC-128, version 2: tags of 16 bytes.
pub type Spoc128Sealer = Spoc<32, Spoc128>;

/// SpoC over the bench suite, version 9: tags of 8 bytes. It is for pencil and paper, and keeps no secret.
pub type BenchSealer = Spoc<32, Bench>;

// Shown once, for every suite.
impl<const B: usize, S: Suite<B>> Sealer for Spoc<B, S> {
    ghost meaning = { spoc S.Bijection.meaning S.SuiteModel.plan };

    const VERSION: u16 = S::VERSION;

    const WIDTH: usize = S::RATE;

    ghost VERSION = { S.Suite.VERSION };

    ghost WIDTH = { S.Suite.RATE };

    fn seal(
        key: &[u8],
        nonce: &[u8],
        data: &[u8],
        message: &[u8],
        out: &mut [u8],
        tag: &mut [u8],
    ) -> Result<(), SealFault> {
        seal::<B, S>(key, nonce, data, message, out, tag)
    }

    fn open(
        key: &[u8],
        nonce: &[u8],
        data: &[u8],
        ciphertext: &[u8],
        out: &mut [u8],
        tag: &[u8],
    ) -> Result<(), SealFault> {
        open::<B, S>(key, nonce, data, ciphertext, out, tag)
    }

    fn test(
        key: &[u8],
        nonce: &[u8],
        data: &[u8],
        ciphertext: &[u8],
        scratch: &mut [u8],
        tag: &[u8],
    ) -> Result<(), SealFault> {
        test::<B, S>(key, nonce, data, ciphertext, scratch, tag)
    }

    ghost laws = { spoc_laws S.Bijection.meaning S.SuiteModel.plan
        S.SuiteModel.sound S.Bijection.bijective };

    ghost version_is = { S.Suite.version_is };

    ghost width_is = { S.Suite.rate_is };
}
