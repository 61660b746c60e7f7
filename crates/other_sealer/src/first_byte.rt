ghost use Rattle.std.specs.Prelude.{refl};
ghost use Rattle.other_sealer.specs.FirstByte.{first_byte, first_byte_laws};

use sealer::{SCRATCH_BYTES, SealFault, Sealer, ask_lengths};

/// The smallest sealer that refuses another key: a ciphertext is its message, and a tag is the key's first byte.
///
/// It keeps the sealer's rule and no secret, and is there for tests: whoever reads a card of it can forge one.
pub struct FirstByte;

impl Sealer for FirstByte {
    ghost meaning = { first_byte };

    const VERSION: u16 = 778;

    const WIDTH: usize = 1;

    ghost VERSION = { first_byte.version };

    ghost WIDTH = { first_byte.width };

    fn seal(
        key: &[u8],
        nonce: &[u8],
        data: &[u8],
        message: &[u8],
        out: &mut [u8],
        tag: &mut [u8],
    ) -> Result<(), SealFault> {
        let (key, _) = ask_lengths(
            key,
            nonce,
            data,
            message,
            message.len(),
            out,
            tag,
            Self::WIDTH,
        )?;
        out[..message.len()].copy_from_slice(message);
        tag[0] = key[0];
        Ok(())
    }

    fn open(
        key: &[u8],
        nonce: &[u8],
        data: &[u8],
        ciphertext: &[u8],
        out: &mut [u8],
        tag: &[u8],
    ) -> Result<(), SealFault> {
        let (key, _) = ask_lengths(
            key,
            nonce,
            data,
            ciphertext,
            ciphertext.len(),
            out,
            tag,
            Self::WIDTH,
        )?;
        if tag[0] != key[0] {
            out[..ciphertext.len()].fill(0);
            return Err(SealFault::TagMismatch);
        }
        out[..ciphertext.len()].copy_from_slice(ciphertext);
        Ok(())
    }

    fn test(
        key: &[u8],
        nonce: &[u8],
        data: &[u8],
        ciphertext: &[u8],
        scratch: &mut [u8],
        tag: &[u8],
    ) -> Result<(), SealFault> {
        let (key, _) = ask_lengths(
            key,
            nonce,
            data,
            ciphertext,
            SCRATCH_BYTES,
            scratch,
            tag,
            Self::WIDTH,
        )?;
        scratch.first_chunk_mut::<SCRATCH_BYTES>().unwrap().fill(0);
        if tag[0] != key[0] {
            return Err(SealFault::TagMismatch);
        }
        Ok(())
    }

    ghost laws = { first_byte_laws };

    ghost version_is = { refl };

    ghost width_is = { refl };
}
