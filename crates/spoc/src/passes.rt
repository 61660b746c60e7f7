ghost use Rattle.std.specs.Prelude.{◌≡◌, ◌≤◌, ◌++◌, length, drop, replicate};
ghost use Rattle.sealer.specs.Seal.{judged, verdict, scratch_bytes};
ghost use Rattle.spoc.specs.Sealing.{spoc};

use crate::mode::{Duplex, Way};
use crate::suite::Suite;
use sealer::{SCRATCH_BYTES, SealFault};

// What seal, open and test do past their questions. Each begins in the state that it is handed, whatever that
// holds, and leaves zeros in it, whichever way it ends. They are inlined: of a state that is a local the
// compiler knows that no buffer is part of it.
impl<const B: usize, S: Suite<B>> Duplex<B, S> {
    // Seals a message with its data.
    #[inline(always)]
    pub(crate) fn seal(
        &mut self,
        key: &[u8; 16],
        nonce: &[u8; 16],
        data: &[u8],
        message: &[u8],
        out: &mut [u8],
        tag: &mut [u8],
    )
        requires room { length message.now ≤ length out.old }
        requires width { length tag.old ≡ S.SuiteModel.plan.rate }
        ensures out { out.new ≡ (spoc S.Bijection.meaning S.SuiteModel.plan).ciphertext
            key.now nonce.now «data».now message.now ++ drop (length message.now) out.old }
        ensures tag { tag.new ≡ (spoc S.Bijection.meaning S.SuiteModel.plan).tag
            key.now nonce.now «data».now message.now }
        ensures wiped { self.new.state ≡ replicate B 0 }
    {
        self.begin(key, nonce, data, message);
        self.crypt(Way::Seal, message, out);
        self.finish(tag);
    }

    // Opens a ciphertext with its data and tag; where the tag disagrees, zeros are left of the message.
    #[inline(always)]
    pub(crate) fn open(
        &mut self,
        key: &[u8; 16],
        nonce: &[u8; 16],
        data: &[u8],
        ciphertext: &[u8],
        out: &mut [u8],
        tag: &[u8],
    ) -> Result<(), SealFault>
        requires room { length ciphertext.now ≤ length out.old }
        requires width { length tag.now ≡ S.SuiteModel.plan.rate }
        ensures answer { result ≡ (judged ((spoc S.Bijection.meaning S.SuiteModel.plan).opens
            key.now nonce.now «data».now ciphertext.now tag.now)
            (length ciphertext.now) (drop (length ciphertext.now) out.old)).answer }
        ensures out { out.new ≡ (judged ((spoc S.Bijection.meaning S.SuiteModel.plan).opens
            key.now nonce.now «data».now ciphertext.now tag.now)
            (length ciphertext.now) (drop (length ciphertext.now) out.old)).out }
        ensures wiped { self.new.state ≡ replicate B 0 }
    {
        self.begin(key, nonce, data, ciphertext);
        self.crypt(Way::Open, ciphertext, out);
        if self.verify(tag) {
            return Ok(());
        }
        out[..ciphertext.len()].fill(0);
        Err(SealFault::TagMismatch)
    }

    // Opens a ciphertext one block over the other, and tells whether the tag agrees; of the blocks zeros are
    // left.
    #[inline(always)]
    pub(crate) fn test(
        &mut self,
        key: &[u8; 16],
        nonce: &[u8; 16],
        data: &[u8],
        ciphertext: &[u8],
        scratch: &mut [u8; SCRATCH_BYTES],
        tag: &[u8],
    ) -> Result<(), SealFault>
        requires width { length tag.now ≡ S.SuiteModel.plan.rate }
        ensures answer { result ≡ verdict ((spoc S.Bijection.meaning S.SuiteModel.plan).opens
            key.now nonce.now «data».now ciphertext.now tag.now) }
        ensures scratch { scratch.new ≡ replicate scratch_bytes 0 }
        ensures wiped { self.new.state ≡ replicate B 0 }
    {
        self.begin(key, nonce, data, ciphertext);
        self.open_over(ciphertext, scratch);
        scratch.fill(0);
        if self.verify(tag) {
            return Ok(());
        }
        Err(SealFault::TagMismatch)
    }
}
