ghost use Rattle.std.specs.Prelude.{◌≡◌, ◌≤◌, Some};
ghost use Rattle.cards.specs.Faults.{at, record_number, card_number, of_card, refused_text};
ghost use Rattle.cards.specs.Questions.{field_place};
ghost use Rattle.cards.specs.declared.fault.CardFault.TheVariants as card;
ghost use Rattle.cards.specs.declared.fault.RecordFault.TheVariants as rec;

use sealer::SealFault;
use std::error::Error;
use std::fmt;

/// A fault, and the record and the place of a card that it is at (docs/cards.md).
#[derive(Clone, Copy, Debug, PartialEq, Eq)]
pub struct At<E> {
    /// What was refused: a layer's own fault.
    pub fault: E,
    /// The number of a record, counted from 0, the end record included.
    pub record: usize,
    /// A place in the card, in bytes from its first, which is 0.
    pub place: usize,
}

impl<E> At<E> {
    /// A fault at a record and a place, which are taken as they are.
    pub fn new(fault: E, record: usize, place: usize) -> At<E>
        ensures { result ≡ at fault «record» place }
    {
        At {
            fault,
            record,
            place,
        }
    }
}

/// A fault of the cipher, layer 1, at a record and a place of a card.
pub type SealedFault = At<SealFault>;

/// What is wrong with a record: each refusal of layer 2, with its number (docs/cards.md).
#[derive(Clone, Copy, Debug, PartialEq, Eq)]
pub enum RecordNo {
    /// The body has more than 4,096 bytes.
    BodyLong = 7,
    /// There are 512 sheets already.
    SheetsFull = 8,
    /// The medium does not hold this record and an end record after it.
    MediumShort = 9,
    /// The head's 9 bytes, or body and tag, are not all there.
    Cut = 10,
    /// The kind is neither 1, a sheet, nor 2, an end.
    Kind = 13,
    /// The end record does not say how many sheets there are, or has an edition or a length.
    End = 14,
}

impl RecordNo {
    /// This refusal as the fault of a record, of layer 2, at a record and a place.
    pub fn at(self, record: usize, place: usize) -> RecordFault
        ensures { result ≡ rec.Own (at self «record» place) }
    {
        RecordFault::Own(At::new(self, record, place))
    }

    /// Where in a record the field begins that it is about, in bytes from the record's first: 7 for the
    /// length of `BodyLong`, 1 for the cell of `End`, 0 where the record itself is meant (of `Cut`, its head;
    /// that body and tag are cut is told 9 on).
    pub fn field(&self) -> usize
        ensures field { result ≡ field_place self.now }
        ensures within { result ≤ 7 }
    {
        match self {
            RecordNo::BodyLong => 7,
            RecordNo::End => 1,
            _ => 0,
        }
    }

    // The number of the question that got it.
    fn number(&self) -> u8
        ensures { result ≡ record_number self.now }
    {
        *self as u8
    }
}

/// A fault of a record, or of the cipher under it, whole (docs/cards.md).
#[derive(Clone, Copy, Debug, PartialEq, Eq)]
pub enum RecordFault {
    /// The cipher refused: 1 to 6, of layer 1.
    Seal(SealedFault),
    /// The record's own refusal, of layer 2.
    Own(At<RecordNo>),
}

/// What is wrong with a card: each refusal of layer 3, with its number (docs/cards.md).
#[derive(Clone, Copy, Debug, PartialEq, Eq)]
pub enum CardNo {
    /// The medium does not hold a header and an end record, for start, or the end record, for close.
    MediumShort = 9,
    /// The header's 13 bytes are not all there.
    Cut = 10,
    /// The mark is not SEA.
    Mark = 11,
    /// The version is not the sealer's, or of a checked card the width.
    Version = 12,
    /// Bytes are left after the end record.
    Left = 15,
    /// There is no sheet of that number.
    Number = 16,
}

impl CardNo {
    /// This refusal as the fault of a card, of layer 3, at a record and a place. `RecordNo` has the same: a
    /// trait over both would take longer to say each layer.
    pub fn at(self, record: usize, place: usize) -> CardFault
        ensures { result ≡ card.Own (at self «record» place) }
    {
        CardFault::Own(At::new(self, record, place))
    }

    // The number of the question that got it.
    fn number(&self) -> u8
        ensures { result ≡ card_number self.now }
    {
        *self as u8
    }
}

/// A fault of a card, or of a record of it, whole: what start, append, close, check and sheet refuse with
/// (docs/cards.md).
///
/// It is printed as `refused N layer Y record I place P`, with the four numbers that its methods answer.
#[derive(Clone, Copy, Debug, PartialEq, Eq)]
pub enum CardFault {
    /// A record, or the cipher under it, refused: layer 2 or 1.
    Record(RecordFault),
    /// The card's own refusal, of layer 3.
    Own(At<CardNo>),
}

impl From<SealedFault> for RecordFault {
    ghost from_gives = { λ f r. r ≡ rec.Seal f };

    fn from(fault: SealedFault) -> RecordFault {
        RecordFault::Seal(fault)
    }
}

impl From<RecordFault> for CardFault {
    ghost from_gives = { λ f r. r ≡ card.Record f };

    fn from(fault: RecordFault) -> CardFault {
        CardFault::Record(fault)
    }
}

impl CardFault {
    /// A fault of the cipher before any record, at record 0 and place 0: so start and check answer 1 for
    /// their key, and check 4 for its scratch.
    pub fn of_cipher(fault: SealFault) -> CardFault
        ensures { result ≡ card.Record (rec.Seal (at fault 0 0)) }
    {
        CardFault::from(RecordFault::from(At::new(fault, 0, 0)))
    }

    /// The number of the question that got a no, 1 to 16 (docs/cards.md).
    pub fn number(&self) -> u8
        ensures { result ≡ (of_card self.now).number }
    {
        match self {
            CardFault::Record(RecordFault::Seal(at)) => at.fault.number(),
            CardFault::Record(RecordFault::Own(at)) => at.fault.number(),
            CardFault::Own(at) => at.fault.number(),
        }
    }

    /// The layer that refuses: 1 the cipher, 2 a record, 3 the card.
    pub fn layer(&self) -> u8
        ensures { result ≡ (of_card self.now).layer }
    {
        match self {
            CardFault::Record(RecordFault::Seal(at)) => at.fault.layer(),
            CardFault::Record(RecordFault::Own(_)) => 2,
            CardFault::Own(_) => 3,
        }
    }

    /// The record, counted from 0: in check the one reached, in append and close how many sheets were
    /// accepted, in sheet the number given, else 0.
    pub fn record(&self) -> usize
        ensures { result ≡ (of_card self.now).record_no }
    {
        match self {
            CardFault::Record(RecordFault::Seal(at)) => at.record,
            CardFault::Record(RecordFault::Own(at)) => at.record,
            CardFault::Own(at) => at.record,
        }
    }

    /// The place, in bytes from the card's first: in check where the part asked after begins, in append and
    /// close where the next record would begin, in sheet where the body begins (4 and 6) or 0 (12 and 16),
    /// else 0.
    pub fn place(&self) -> usize
        ensures { result ≡ (of_card self.now).place }
    {
        match self {
            CardFault::Record(RecordFault::Seal(at)) => at.place,
            CardFault::Record(RecordFault::Own(at)) => at.place,
            CardFault::Own(at) => at.place,
        }
    }
}

// refused N layer Y record I place P
impl fmt::Display for CardFault {
    ghost output = { λ f. Some (refused_text (of_card f)) };

    fn fmt<W: fmt::Write>(&self, f: &mut fmt::Formatter<W>) -> fmt::Result {
        write!(
            f,
            "refused {} layer {} record {} place {}",
            self.number(),
            self.layer(),
            self.record(),
            self.place()
        )
    }
}

impl Error for CardFault {}
