ghost use Rattle.std.specs.Prelude.{◌≡◌, ◌+◌, ◌≤◌, ◌++◌, length, take};
ghost use Rattle.cards.specs.Faults.{at, fault, passed, recorded};
ghost use Rattle.cards.specs.Format.{nonce as nonce_of};
ghost use Rattle.cards.specs.Reader.{body_of, head_of, length_of, sheet_at, tag_of, unseal};
ghost use Rattle.reader.specs.Heads.{titled};
ghost use Rattle.reader.specs.Said.{said, tried, open_answer, open_output};

use crate::rest::{Record, Rest, SheetHead};
use cards::{At, HEAD_BYTES, RecordFault, SealedFault, record_data, record_nonce};
use sealer::{SCRATCH_BYTES, Sealer};

// What the records of a card are opened with: its key and its header.
#[derive(Clone, Copy)]
pub(crate) struct CardKey<'a> {
    pub(crate) key: &'a [u8; 16],
    pub(crate) header: &'a [u8; 13],
}

// The first N bytes.
pub(crate) fn front<const N: usize>(bytes: &[u8]) -> &[u8; N]
    requires { N ≤ length bytes.now }
    ensures { result.now ≡ take N bytes.now }
{
    bytes.first_chunk::<N>().unwrap()
}

impl CardKey<'_> {
    // Opens a body of the record at the front into a buffer; a fault has the record's number, and a place.
    // That the tag is as long as the width is asked here alone: a record's type says it of no tag, as it
    // knows no sealer.
    fn open<C: Sealer>(
        &self,
        rest: &Rest<'_>,
        body: &[u8],
        tag: &[u8],
        place: usize,
        out: &mut [u8],
    ) -> Result<(), SealedFault>
        requires head { 9 ≤ length rest.now.bytes.now }
        requires lengths { (length body.now ≤ 65535) × (length tag.now ≡ C.meaning.width) }
        ensures answer { passed result ≡ open_answer
            (C.meaning.opens self.now.key.now
            (nonce_of self.now.header.now rest.now.number)
            (self.now.header.now ++ head_of rest.now.bytes.now)
            body.now tag.now)
            (length body.now) (length out.old) rest.now.number place }
        ensures output { out.new ≡ open_output
            (C.meaning.opens self.now.key.now
            (nonce_of self.now.header.now rest.now.number)
            (self.now.header.now ++ head_of rest.now.bytes.now)
            body.now tag.now)
            (length body.now) out.old }
    {
        let CardKey { key, header } = *self;
        let data = record_data(header, front::<HEAD_BYTES>(rest.bytes));
        let nonce = record_nonce(header, rest.number as u64);
        let number = rest.number;
        C::open(key, &nonce, &data, body, out, tag).map_err(
            |fault|
                ensures { result ≡ at fault number place }
            { At::new(fault, number, place) },
        )
    }

    // Tries the tag of a body of the record at the front; a fault has the record's number, and a place.
    fn test<C: Sealer>(
        &self,
        rest: &Rest<'_>,
        body: &[u8],
        tag: &[u8],
        place: usize,
        scratch: &mut [u8; SCRATCH_BYTES],
    ) -> Result<(), SealedFault>
        requires head { 9 ≤ length rest.now.bytes.now }
        requires lengths { (length body.now ≤ 65535) × (length tag.now ≡ C.meaning.width) }
        ensures { passed result ≡ unseal
            (C.meaning.opens self.now.key.now
            (nonce_of self.now.header.now rest.now.number)
            (self.now.header.now ++ head_of rest.now.bytes.now)
            body.now tag.now)
            (λ _. tt) (fault 6 1 rest.now.number place) }
    {
        let CardKey { key, header } = *self;
        let data = record_data(header, front::<HEAD_BYTES>(rest.bytes));
        let nonce = record_nonce(header, rest.number as u64);
        let number = rest.number;
        C::test(key, &nonce, &data, body, scratch, tag).map_err(
            |fault|
                ensures { result ≡ at fault number place }
            { At::new(fault, number, place) },
        )
    }

    // The record at the front, its tag tried.
    pub(crate) fn read<'a, C: Sealer>(
        &self,
        rest: &Rest<'a>,
        scratch: &mut [u8; SCRATCH_BYTES],
    ) -> Result<Record<'a>, RecordFault>
        ensures { said result ≡ tried C.meaning self.now.key.now self.now.header.now
            rest.now.number rest.now.place rest.now.bytes.now }
    {
        let record = rest.parse(C::WIDTH)?;
        let (body, tag) = record.sealed();
        self.test::<C>(
            rest,
            body,
            tag,
            rest.place + HEAD_BYTES + body.len(),
            scratch,
        )?;
        Ok(record)
    }

    // Opens the sheet at the front, which lies within the rest, into the buffer.
    pub(crate) fn open_sheet<C: Sealer>(
        &self,
        rest: &Rest<'_>,
        buffer: &mut [u8],
    ) -> Result<SheetHead, RecordFault>
        requires { 9 + length_of rest.now.bytes.now + C.meaning.width ≤ length rest.now.bytes.now }
        ensures answer { recorded result ≡ titled
            (sheet_at C.meaning self.now.key.now self.now.header.now
            rest.now.number rest.now.place rest.now.bytes.now (length buffer.old)) }
        ensures buffer { buffer.new ≡ open_output
            (C.meaning.opens self.now.key.now
            (nonce_of self.now.header.now rest.now.number)
            (self.now.header.now ++ head_of rest.now.bytes.now)
            (body_of rest.now.bytes.now) (tag_of C.meaning.width rest.now.bytes.now))
            (length_of rest.now.bytes.now) buffer.old }
    {
        let (body, tag) = rest.body_and_tag(C::WIDTH);
        self.open::<C>(rest, body, tag, rest.place + HEAD_BYTES, buffer)?;
        Ok(rest.head())
    }
}
