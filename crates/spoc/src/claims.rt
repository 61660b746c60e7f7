ghost use Rattle.std.specs.Prelude.{◌≡◌, ◌≤◌, ◌++◌, length, drop, Ok};
ghost use Rattle.spoc.specs.Claims.{Claims};
ghost use Rattle.spoc.specs.Seal.{sealed, sealed_then_opened};

use crate::sealing::{open, seal};
use crate::suite::Suite;
use sealer::SealFault;

/// Seals a message into `ciphertext` and `tag`, and opens into `out` what it sealed: a check of itself that a
/// program can make (docs/cipher.md).
///
/// The first fault, of seal or then of open, is the answer. `ciphertext` and `tag` hold what `seal` leaves in
/// them; `out` holds what `open` leaves, and stays where seal refuses. Where seal accepts and `out` has room
/// for the message, `out` begins with it.
///
/// The clause `claims` is that of `seal`.
pub fn seal_and_open<const B: usize, S: Suite<B>>(
    key: &[u8],
    nonce: &[u8],
    data: &[u8],
    message: &[u8],
    ciphertext: &mut [u8],
    out: &mut [u8],
    tag: &mut [u8],
) -> Result<(), SealFault>
    ensures ciphertext { ciphertext.new ≡ (sealed S.Bijection.meaning S.SuiteModel.plan
        key.now nonce.now «data».now message.now ciphertext.old tag.old).out }
    ensures tag { tag.new ≡ (sealed S.Bijection.meaning S.SuiteModel.plan
        key.now nonce.now «data».now message.now ciphertext.old tag.old).tag }
    ensures answer { result ≡ (sealed_then_opened S.Bijection.meaning S.SuiteModel.plan
        key.now nonce.now «data».now message.now ciphertext.old out.old tag.old).answer }
    ensures out { out.new ≡ (sealed_then_opened S.Bijection.meaning S.SuiteModel.plan
        key.now nonce.now «data».now message.now ciphertext.old out.old tag.old).out }
    ensures round_trip { (sealed S.Bijection.meaning S.SuiteModel.plan
        key.now nonce.now «data».now message.now ciphertext.old tag.old).answer ≡ Ok tt
        → length message.now ≤ length out.old
        → (result ≡ Ok tt) × (out.new ≡ message.now ++ drop (length message.now) out.old) }
    ensures claims { Claims S.Bijection.meaning S.SuiteModel.plan }
{
    seal::<B, S>(key, nonce, data, message, ciphertext, tag)?;
    open::<B, S>(key, nonce, data, &ciphertext[0..message.len()], out, tag)
}
