ghost use Rattle.std.specs.Prelude.{◌≡◌};
ghost use Rattle.sealer.specs.Seal.{AnswersAsOpen};
ghost use Rattle.spoc.specs.Claims.{Claims};
ghost use Rattle.spoc.specs.Sealing.{spoc};
ghost use Rattle.spoc.specs.Seal.{sealed, opened, tested};

use crate::mode::Duplex;
use crate::suite::Suite;
use sealer::{SCRATCH_BYTES, SealFault, ask_lengths};

/// Seals a message with its data under a suite (docs/cipher.md): the ciphertext goes to the front of `out`,
/// and the tag into `tag`.
///
/// Key and nonce are to have 16 bytes (1, 2), data and message at most 65,535 each (3), `out` at least as
/// many as the message (4), `tag` exactly the suite's rate (5). After a no both buffers are as they were;
/// bytes of `out` beyond the message's length always stay.
///
/// The clause `claims` says of every suite that different data or messages have different feeds, that one
/// mask, and the key, tell the end state, and what opens. It stands here because every program that seals
/// makes this call.
pub fn seal<const B: usize, S: Suite<B>>(
    key: &[u8],
    nonce: &[u8],
    data: &[u8],
    message: &[u8],
    out: &mut [u8],
    tag: &mut [u8],
) -> Result<(), SealFault>
    ensures answer { result ≡ (sealed S.Bijection.meaning S.SuiteModel.plan
        key.now nonce.now «data».now message.now out.old tag.old).answer }
    ensures out { out.new ≡ (sealed S.Bijection.meaning S.SuiteModel.plan
        key.now nonce.now «data».now message.now out.old tag.old).out }
    ensures tag { tag.new ≡ (sealed S.Bijection.meaning S.SuiteModel.plan
        key.now nonce.now «data».now message.now out.old tag.old).tag }
    ensures claims { Claims S.Bijection.meaning S.SuiteModel.plan }
{
    let (key, nonce) = ask_lengths(key, nonce, data, message, message.len(), out, tag, S::RATE)?;
    let mut duplex = Duplex::<B, S>::zeros();
    duplex.seal(key, nonce, data, message, out, tag);
    Ok(())
}

/// Opens a ciphertext with its data and tag under a suite (docs/cipher.md): the message goes to the front of
/// `out`.
///
/// It asks what `seal` asks, of the ciphertext in the message's place, and then whether the tag agrees (6).
/// After a no to 1 to 5 `out` is as it was; after 6 its first bytes, as many as the ciphertext has, are zero;
/// bytes beyond them always stay.
pub fn open<const B: usize, S: Suite<B>>(
    key: &[u8],
    nonce: &[u8],
    data: &[u8],
    ciphertext: &[u8],
    out: &mut [u8],
    tag: &[u8],
) -> Result<(), SealFault>
    ensures answer { result ≡ (opened S.Bijection.meaning S.SuiteModel.plan
        key.now nonce.now «data».now ciphertext.now out.old tag.now).answer }
    ensures out { out.new ≡ (opened S.Bijection.meaning S.SuiteModel.plan
        key.now nonce.now «data».now ciphertext.now out.old tag.now).out }
{
    let (key, nonce) = ask_lengths(
        key,
        nonce,
        data,
        ciphertext,
        ciphertext.len(),
        out,
        tag,
        S::RATE,
    )?;
    let mut duplex = Duplex::<B, S>::zeros();
    duplex.open(key, nonce, data, ciphertext, out, tag)
}

/// Answers what `open` would, opening one block over the other in 16 bytes of scratch, which are zero then
/// (docs/sealers.md).
///
/// Its question 4 is whether the scratch has 16 bytes or more. After a no to 1 to 5 the scratch is as it was;
/// after 6 and after success its first 16 bytes are zero. Bytes beyond them always stay.
pub fn test<const B: usize, S: Suite<B>>(
    key: &[u8],
    nonce: &[u8],
    data: &[u8],
    ciphertext: &[u8],
    scratch: &mut [u8],
    tag: &[u8],
) -> Result<(), SealFault>
    ensures answer { result ≡ (tested S.Bijection.meaning S.SuiteModel.plan
        key.now nonce.now «data».now ciphertext.now scratch.old tag.now).answer }
    ensures scratch { scratch.new ≡ (tested S.Bijection.meaning S.SuiteModel.plan
        key.now nonce.now «data».now ciphertext.now scratch.old tag.now).out }
    ensures as_open { AnswersAsOpen (spoc S.Bijection.meaning S.SuiteModel.plan)
        key.now nonce.now «data».now ciphertext.now scratch.old tag.now result }
{
    let (key, nonce) = ask_lengths(
        key,
        nonce,
        data,
        ciphertext,
        SCRATCH_BYTES,
        scratch,
        tag,
        S::RATE,
    )?;
    let mut duplex = Duplex::<B, S>::zeros();
    let part = scratch.first_chunk_mut::<SCRATCH_BYTES>().unwrap();
    duplex.test(key, nonce, data, ciphertext, part, tag)
}
