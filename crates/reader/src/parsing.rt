ghost use Rattle.std.specs.Prelude.{◌≡◌, ◌+◌, ◌<◌, ◌≤◌, length, drop};
ghost use Rattle.cards.specs.Faults.{at, recorded};
ghost use Rattle.cards.specs.declared.RecordFault.TheVariants as rec;
ghost use Rattle.cards.specs.Reader.{body_of, length_of, parse as parse_of, tag_of};
ghost use Rattle.reader.specs.Heads.{fields};
ghost use Rattle.reader.specs.Said.{said, asked};

use crate::key::front;
use crate::rest::{Record, Rest, SheetHead};
use cards::{HEAD_BYTES, HEADER_BYTES, Kind, RecordFault, RecordNo, ask_sheet};

impl<'a> Rest<'a> {
    // The rest of a card after its header.
    pub(crate) fn records(card: &'a [u8]) -> Rest<'a>
        ensures bytes { result.bytes.now ≡ drop 13 card.now }
        ensures number { result.number ≡ 0 }
        ensures place { result.place ≡ 13 }
    {
        Rest {
            bytes: &card[HEADER_BYTES.min(card.len())..],
            number: 0,
            place: HEADER_BYTES,
        }
    }

    // The fields of its record.
    pub(crate) fn head(&self) -> SheetHead
        requires { 9 ≤ length self.now.bytes.now }
        ensures fields { result ≡ fields self.now.bytes.now }
        ensures short { result.length ≤ 65535 }
    {
        let [_, c0, c1, c2, c3, e0, e1, l0, l1] = *front::<HEAD_BYTES>(self.bytes);
        SheetHead {
            cell: u32::from_be_bytes([c0, c1, c2, c3]),
            edition: u16::from_be_bytes([e0, e1]),
            length: u16::from_be_bytes([l0, l1]) as usize,
        }
    }

    // The rest after its record, where that has so many bytes.
    pub(crate) fn after(&self, size: usize) -> Rest<'a>
        requires some { 0 < size }
        requires within { size ≤ length self.now.bytes.now }
        ensures bytes { result.bytes.now ≡ drop size self.now.bytes.now }
        ensures number { result.number ≡ self.now.number + 1 }
        ensures place { result.place ≡ self.now.place + size }
    {
        Rest {
            bytes: &self.bytes[size..],
            number: self.number + 1,
            place: self.place + size,
        }
    }

    // Its body and its tag of `width` bytes, where they are all there.
    pub(crate) fn body_and_tag(&self, width: usize) -> (&'a [u8], &'a [u8])
        requires { 9 + length_of self.now.bytes.now + width ≤ length self.now.bytes.now }
        ensures body { result.0.now ≡ body_of self.now.bytes.now }
        ensures tag { result.1.now ≡ tag_of width self.now.bytes.now }
        ensures lengths { (length result.0.now ≤ 65535) × (length result.1.now ≡ width) }
    {
        let end = HEAD_BYTES + self.head().length;
        (&self.bytes[HEAD_BYTES..end], &self.bytes[end..end + width])
    }

    // The questions on its head, which is of a kind.
    fn ask(&self, kind: Kind, head: SheetHead) -> Result<(), RecordFault>
        requires { (9 ≤ length self.now.bytes.now) × (head ≡ fields self.now.bytes.now) }
        ensures { recorded result ≡ asked kind self.now.number self.now.place self.now.bytes.now }
    {
        let asked = match kind {
            Kind::Sheet => ask_sheet(self.number, head.length),
            Kind::End
                if head.cell as usize != self.number || head.edition != 0 || head.length != 0 => {
                Err(RecordNo::End)
            }
            Kind::End => Ok(()),
        };
        // No map_err: a closure doesn't know that the sum fits.
        match asked {
            Ok(()) => Ok(()),
            Err(refusal) => Err(refusal.at(self.number, self.place + refusal.field())),
        }
    }

    // Its record, under a tag of `width` bytes.
    pub(crate) fn parse(&self, width: usize) -> Result<Record<'a>, RecordFault>
        requires { width ≤ 16 }
        ensures { said result ≡ parse_of width self.now.number self.now.place self.now.bytes.now }
    {
        let (number, place) = (self.number, self.place);
        let [kind, ..] = *self
            .bytes
            .first_chunk::<HEAD_BYTES>()
            .ok_or(RecordNo::Cut.at(number, place))?;
        let kind = Kind::try_from(kind).map_err(
            |no|
                ensures { result ≡ rec.Own (at no number place) }
            { no.at(number, place) },
        )?;
        let head = self.head();
        self.ask(kind, head)?;
        if self.bytes.len() < HEAD_BYTES + head.length + width {
            return Err(RecordNo::Cut.at(self.number, self.place + HEAD_BYTES));
        }
        let (body, tag) = self.body_and_tag(width);
        Ok(match kind {
            Kind::Sheet => Record::Sheet {
                cell: head.cell,
                edition: head.edition,
                body,
                tag,
            },
            Kind::End => Record::End { tag },
        })
    }
}
