ghost use Rattle.std.specs.Prelude.{◌≡◌, None, Some, MatchResult};
ghost use Rattle.sealer.specs.Seal.{first_no};

use crate::fault::SealFault;

/// The most bytes that data, or a message or a ciphertext, may have.
pub const MOST_TEXT: usize = 65535;

/// Asks questions 1 to 5, which are all about lengths, for any sealer: of a key, a nonce, data, a message or a ciphertext, an
/// output that is to have `room` bytes, and a tag that is to have `width`. The answer is key and nonce as arrays, or the first
/// no. It reads no byte.
pub fn ask_lengths<'a>(
    key: &'a [u8],
    nonce: &'a [u8],
    data: &[u8],
    text: &[u8],
    room: usize,
    out: &[u8],
    tag: &[u8],
    width: usize,
) -> Result<(&'a [u8; 16], &'a [u8; 16]), SealFault>
    ensures { MatchResult result
        (λ r. (first_no width room key.now nonce.now «data».now text.now out.now tag.now ≡ None) × (r.0.now ≡ key.now) × (r.1.now ≡ nonce.now))
        (λ e. first_no width room key.now nonce.now «data».now text.now out.now tag.now ≡ Some e) }
{
    let key = <&[u8; 16]>::try_from(key).map_err(|_| SealFault::KeyLength)?;
    let nonce = <&[u8; 16]>::try_from(nonce).map_err(|_| SealFault::NonceLength)?;
    if data.len() > MOST_TEXT || text.len() > MOST_TEXT {
        return Err(SealFault::TooLong);
    }
    if room > out.len() {
        return Err(SealFault::OutputShort);
    }
    if tag.len() != width {
        return Err(SealFault::TagLength);
    }
    Ok((key, nonce))
}
