ghost use Rattle.std.specs.Prelude.{◌≡◌, length, replicate};
ghost use Rattle.cards.specs.Claims.{CardClaims};
ghost use Rattle.cards.specs.Faults.{told};
ghost use Rattle.cards.specs.Reader.{check as check_of, check_bytes, filled, how_many, scratch_after, walk};
ghost use Rattle.reader.specs.Cards.{shown, passes};

use crate::card::Card;
use crate::key::CardKey;
use crate::rest::{Record, Rest};
use cards::{CardFault, CardNo, HEAD_BYTES, HEADER_BYTES, MARK};
use sealer::{SCRATCH_BYTES, SealFault, Sealer};

// Walks the records of a card, and counts the sheets.
fn walk_records<C: Sealer>(
    key: &CardKey<'_>,
    records: Rest<'_>,
    scratch: &mut [u8; SCRATCH_BYTES],
) -> Result<usize, CardFault>
    requires { (records.number ≡ 0) × (records.place ≡ 13) }
    ensures { told result ≡ how_many 0
        (walk C.meaning key.now.key.now key.now.header.now 512 0 13 records.entry.bytes.now) }
{
    let mut rest = records;
    // How many records there are is not known before the end record is read, and each can be refused: no
    // iterator.
    loop {
        match key.read::<C>(&rest, scratch)? {
            Record::Sheet { body, .. } => rest = rest.after(HEAD_BYTES + body.len() + C::WIDTH),
            Record::End { .. } => {
                let size = HEAD_BYTES + C::WIDTH;
                if rest.bytes.len() > size {
                    return Err(CardNo::Left.at(rest.number, rest.place + size));
                }
                return Ok(rest.number);
            }
        }
    }
}

// Guards the part of a scratch that check uses: it is zero when the guard ends.
struct Wipe<'a> {
    bytes: &'a mut [u8; SCRATCH_BYTES],
}

impl Drop for Wipe<'_> {
    fn drop(self)
        ensures { self.exit.0.now ≡ replicate 16 0 }
    {
        let Wipe { bytes } = self;
        bytes.fill(0);
    }
}

// The questions on the header, and then the walk over the records behind it. However it ends, its part of the
// scratch is zero.
fn walk_card<C: Sealer>(
    key: &[u8; 16],
    bytes: &[u8],
    scratch: &mut [u8; SCRATCH_BYTES],
) -> Result<usize, CardFault>
    ensures answer { told result ≡ how_many 0 (check_bytes C.meaning key.now bytes.now) }
    ensures zero { scratch.new ≡ replicate 16 0 }
{
    let guard = Wipe { bytes: scratch };
    // The lister asks the first two before it knows a sealer, and keeps version and number; here the sealer
    // is known, and the bytes are kept.
    let header = bytes
        .first_chunk::<HEADER_BYTES>()
        .ok_or(CardNo::Cut.at(0, 0))?;
    let [m0, m1, m2, v0, v1, ..] = *header;
    if [m0, m1, m2] != *MARK {
        return Err(CardNo::Mark.at(0, 0));
    }
    if u16::from_be_bytes([v0, v1]) != C::VERSION {
        return Err(CardNo::Version.at(0, 3));
    }
    walk_records::<C>(
        &CardKey { key, header },
        Rest::records(bytes),
        &mut *guard.bytes,
    )
}

/// Checks a card under a sealer and a key, and fills `card`, whatever it held: with the checked card, or
/// after a no with the empty one (docs/cards.md).
///
/// The first no is the answer. Its record is the one reached, 0 before any; its place is where the part asked
/// after begins, 0 for key and scratch.
///
/// - Has the key 16 bytes (1)? Has the scratch 16 or more (4)?
/// - The header: are 13 bytes there (10)? Is the mark right (11)? Is the version the sealer's (12)?
/// - Each record: are 9 bytes there (10)? Is the kind 1 or 2 (13)? Of a sheet: are there fewer than 512
///   before it (8), and is the length at most 4,096 (7)? Of an end: is the cell how many sheets there are,
///   and are edition and length 0 (14)? Are body and tag there (10)? Does the tag agree (6)?
/// - After the end record: is no byte left (15)?
///
/// After 1 and 4 the scratch is as it was; at every other end its first 16 bytes are zero. Bytes beyond them
/// always stay.
///
/// The clause `claims` says of every sealer, where w is its width:
///
/// - Bytes read as a list of sheets exactly when writing that list gives those bytes: where they read so, on
///   every medium that is long enough; and where some one medium gives them, they read so.
/// - Every list whose sheets pass append's questions can be written, and then reads as that list.
/// - No bytes read as two lists under one key.
/// - What check passes is a list that was written: it reads as some list, whose sheets pass append's
///   questions, and writing that list gives these bytes.
/// - A card of n sheets whose bodies have b bytes in all has 13 + n × (9 + w) + b + 9 + w bytes.
/// - Check answers, and fills the card, as a check that opens each body into 4,096 bytes or more, whatever
///   these hold.
///
/// It stands here because every program that reads a card makes this call.
pub fn check<'a, C: Sealer>(
    key: &[u8],
    bytes: &'a [u8],
    scratch: &mut [u8],
    card: &mut Card<'a>,
) -> Result<(), CardFault>
    ensures answer { told result ≡
        passes (check_of C.meaning key.now (length scratch.old) bytes.now) }
    ensures fills { shown card.new ≡
        filled (check_of C.meaning key.now (length scratch.old) bytes.now) }
    ensures scratch { scratch.new ≡ scratch_after key.now scratch.old }
    ensures claims { CardClaims C.meaning }
{
    *card = Card::empty();
    let key = <[u8; 16]>::try_from(key)
        .ok()
        .ok_or(CardFault::of_cipher(SealFault::KeyLength))?;
    let part = scratch
        .first_chunk_mut::<SCRATCH_BYTES>()
        .ok_or(CardFault::of_cipher(SealFault::OutputShort))?;
    let count = walk_card::<C>(&key, bytes, part)?;
    *card = Card {
        bytes,
        key,
        version: C::VERSION,
        width: C::WIDTH,
        count,
    };
    Ok(())
}
