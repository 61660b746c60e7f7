ghost use Rattle.std.specs.Prelude.{◌≡◌};
ghost use Rattle.cards.specs.Faults.{at, told, recorded};
ghost use Rattle.cards.specs.declared.RecordFault.TheVariants as rec;
ghost use Rattle.cards.specs.Format.{a_sheet};
ghost use Rattle.cards.specs.Claims.{RunsHold};
ghost use Rattle.cards.specs.Plain.{Plain, start as plain_start, start_medium, append_answer, append_questions, after_append, close_answer, after_close};
ghost use Rattle.writer.specs.Stands.{Stands, Starts, Back, closing};

use crate::writer::{Unclosed, Writer};
use cards::{
    CardFault, CardNo, HEAD_BYTES, HEADER_BYTES, Kind, RecordFault, RecordNo, ask_sheet, make_head,
    make_header,
};
use sealer::{SealFault, Sealer};
use std::marker::PhantomData;

impl<C: Sealer> Writer<C> {
    /// Starts a card on a medium (docs/cards.md): writes the header over its first 13 bytes, and answers a
    /// writer at place 13.
    ///
    /// `number` is the card number. It is for one writer under one key: a second writer with both would seal
    /// under the same nonces.
    ///
    /// Has the key 16 bytes (1)? Does the medium hold a header and an end record, 22 bytes and a tag's (9,
    /// layer 3)? The first no is the answer, at record 0 and place 0, and the medium is as it was; bytes
    /// beyond the header always stay.
    pub fn start(key: &[u8], number: u64, medium: &mut [u8]) -> Result<Writer<C>, CardFault>
        ensures answer { Starts result medium.new
            (plain_start C.meaning key.now number medium.old) }
        ensures medium { medium.new ≡ start_medium C.meaning key.now number medium.old }
    {
        let key = <[u8; 16]>::try_from(key)
            .ok()
            .ok_or(CardFault::of_cipher(SealFault::KeyLength))?;
        if medium.len() < HEADER_BYTES + HEAD_BYTES + C::WIDTH {
            return Err(CardNo::MediumShort.at(0, 0));
        }
        let header = make_header(C::VERSION, number);
        let (front, _) = medium.split_at_mut(HEADER_BYTES);
        front.copy_from_slice(&header);
        Ok(Writer {
            sealer: PhantomData,
            key,
            header,
            count: 0,
            place: HEADER_BYTES,
        })
    }

    // The questions of append, of a body and a medium of such lengths. The answer is the record's number.
    fn ask(&self, body: usize, medium: usize) -> Result<usize, RecordFault>
        ensures { recorded result ≡ append_questions C.meaning.width
            self.now.count self.now.place body medium }
    {
        let (count, place) = (self.count, self.place);
        ask_sheet(count, body).map_err(
            |refusal|
                ensures { result ≡ rec.Own (at refusal count place) }
            { refusal.at(count, place) },
        )?;
        let end_record = HEAD_BYTES + C::WIDTH;
        if medium < self.place + (end_record + body) + end_record {
            return Err(RecordNo::MediumShort.at(self.count, self.place));
        }
        Ok(self.count)
    }

    /// Appends a sheet (docs/cards.md): seals its body, writes its record at the writer's place, and answers
    /// the record's number, counted from 0.
    ///
    /// Are there fewer than 512 sheets (8)? Has the body at most 4,096 bytes (7)? Does the medium hold, from
    /// the writer's place on, this record and an end record after it (9, layer 2)? The first no is the
    /// answer, whose record is how many sheets were accepted and whose place is where the record would begin;
    /// medium and writer are then as they were. Bytes outside the record always stay.
    ///
    /// The clause `law` says of all calls from an accepted start that they never seal twice under one nonce,
    /// and that a closed card reads as the accepted sheets, in order.
    pub fn append(
        &mut self,
        medium: &mut [u8],
        cell: u32,
        edition: u16,
        body: &[u8],
    ) -> Result<usize, CardFault>
        ensures plain { (w : Plain) → Stands self.old medium.old w →
            (told result ≡ append_answer C.meaning w (a_sheet cell edition body.now))
            × Stands self.new medium.new
            (after_append C.meaning w (a_sheet cell edition body.now)) }
        ensures law { RunsHold C.meaning }
    {
        let n = self.ask(body.len(), medium.len())?;
        let head = make_head(Kind::Sheet.into(), cell, edition, body.len() as u16);
        self.put(&head, body, medium);
        self.count += 1;
        self.place += HEAD_BYTES + body.len() + C::WIDTH;
        Ok(n)
    }

    /// Writes the end record at the writer's place (docs/cards.md), and answers the card's length: the card
    /// is that many first bytes of the medium.
    ///
    /// Does the medium hold the end record, from the writer's place on (9, layer 3)? After a no the medium is
    /// as it was, and the writer comes back as it was, with the fault. Bytes outside the record always stay.
    ///
    /// The clause `law` is that of `append`.
    pub fn close(self, medium: &mut [u8]) -> Result<usize, Unclosed<C>>
        ensures back { Back result self }
        ensures plain { (w : Plain) → Stands self medium.old w →
            (closing result ≡ close_answer C.meaning w)
            × (medium.new ≡ after_close C.meaning w) }
        ensures law { RunsHold C.meaning }
    {
        let length = self.place + HEAD_BYTES + C::WIDTH;
        if medium.len() < length {
            let fault = CardNo::MediumShort.at(self.count, self.place);
            return Err(Unclosed {
                writer: self,
                fault,
            });
        }
        let head = make_head(Kind::End.into(), self.count as u32, 0, 0);
        self.put(&head, &[], medium);
        Ok(length)
    }
}
