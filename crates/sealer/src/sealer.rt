ghost use Rattle.std.specs.Prelude.{◌≡◌, ℕ};
ghost use Rattle.sealer.specs.Seal.{sealed, opened, tested, AnswersAsOpen};
ghost use Rattle.sealer.specs.Sealing.{Sealing, Laws};

use crate::fault::SealFault;

/// How many bytes of scratch `test` asks for, whatever the sealer.
pub const SCRATCH_BYTES: usize = 16;

/// A cipher that cards are sealed with (docs/sealers.md).
///
/// What it means is a ghost record of functions, so it answers alike for the same input; its laws are proved in each impl.
pub trait Sealer {
    ghost meaning: { Sealing };

    /// The number that a card's header has for it. Let no other sealer have it.
    const VERSION: u16;

    /// How many bytes a tag has, 1 to 16.
    const WIDTH: usize;

    ghost VERSION: { ℕ };

    ghost WIDTH: { ℕ };

    /// Seals a message with its data: the ciphertext goes to the front of `out`, and the tag into `tag`.
    ///
    /// Key and nonce are to have 16 bytes (1, 2), data and message at most 65,535 each (3), `out` at least as many as the
    /// message (4), `tag` exactly `WIDTH` (5). After a no both buffers are as they were; bytes of `out` beyond the message's
    /// length always stay.
    fn seal(
        key: &[u8],
        nonce: &[u8],
        data: &[u8],
        message: &[u8],
        out: &mut [u8],
        tag: &mut [u8],
    ) -> Result<(), SealFault>
        ensures answer { result ≡ (sealed meaning key.now nonce.now «data».now message.now out.old tag.old).answer }
        ensures out { out.new ≡ (sealed meaning key.now nonce.now «data».now message.now out.old tag.old).out }
        ensures tag { tag.new ≡ (sealed meaning key.now nonce.now «data».now message.now out.old tag.old).tag };

    /// Opens a ciphertext with its data and tag: the message goes to the front of `out`.
    ///
    /// It asks what `seal` asks, of the ciphertext in the message's place, and then whether the tag agrees (6). After a no to
    /// 1 to 5 `out` is as it was; after 6 its first bytes, as many as the ciphertext has, are zero; bytes beyond them always stay.
    fn open(
        key: &[u8],
        nonce: &[u8],
        data: &[u8],
        ciphertext: &[u8],
        out: &mut [u8],
        tag: &[u8],
    ) -> Result<(), SealFault>
        ensures answer { result ≡ (opened meaning key.now nonce.now «data».now ciphertext.now out.old tag.now).answer }
        ensures out { out.new ≡ (opened meaning key.now nonce.now «data».now ciphertext.now out.old tag.now).out };

    /// Answers what `open` would, with a scratch in place of the output, of which it uses 16 bytes.
    ///
    /// Its question 4 is whether the scratch has `SCRATCH_BYTES` or more. After a no to 1 to 5 the scratch is as it was; after
    /// 6 and after success its first 16 bytes are zero. Bytes beyond them always stay.
    fn test(
        key: &[u8],
        nonce: &[u8],
        data: &[u8],
        ciphertext: &[u8],
        scratch: &mut [u8],
        tag: &[u8],
    ) -> Result<(), SealFault>
        ensures answer { result ≡ (tested meaning key.now nonce.now «data».now ciphertext.now scratch.old tag.now).answer }
        ensures scratch { scratch.new ≡ (tested meaning key.now nonce.now «data».now ciphertext.now scratch.old tag.now).out }
        ensures as_open { AnswersAsOpen meaning key.now nonce.now «data».now ciphertext.now scratch.old tag.now result };

    ghost laws: { Laws meaning };

    ghost version_is: { VERSION ≡ meaning.version };

    ghost width_is: { WIDTH ≡ meaning.width };
}
