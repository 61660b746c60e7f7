ghost use Rattle.std.specs.Prelude.{◌≡◌, ◌-◌, ◌≤◌, drop};
ghost use Rattle.cards.specs.Reader.{place_of};

use crate::card::Card;
use crate::rest::Rest;
use cards::HEAD_BYTES;

// The sheets of a card that are still to come: the rest begins with the next one, or with the end record.
#[derive(Drop)]
pub(crate) struct Sheets<'c, 'a> {
    card: &'c Card<'a>,
    rest: Rest<'a>,
    ghost place: { rest.place ≡ place_of card.now.width card.now.bytes.now rest.number },
    ghost bytes: { rest.bytes.now ≡
        drop (place_of card.now.width card.now.bytes.now rest.number) card.now.bytes.now },
    ghost within: { rest.number ≤ card.now.count },
}

impl<'a> Card<'a> {
    // Each sheet in turn, as the rest of the card from it on.
    pub(crate) fn sheets(&self) -> Sheets<'_, 'a>
        ensures card { result.card.now ≡ self.now }
        ensures first { result.rest.number ≡ 0 }
    {
        Sheets {
            card: self,
            rest: Rest::records(self.bytes),
        }
    }
}

impl<'a> Iterator for Sheets<'_, 'a> {
    ghost use Rattle.std.specs.Iterator.{at_most};
    ghost use Rattle.reader.specs.Sheets.{GivesSheet};

    type Item = Rest<'a>;

    ghost next_gives = { GivesSheet };

    ghost remaining = { λ s. at_most (s.card.now.count - s.rest.number) };

    fn next(&mut self) -> Option<Rest<'a>> {
        if self.rest.number == self.card.count {
            return None;
        }
        let rest = self.rest;
        self.rest = rest.after(HEAD_BYTES + rest.head().length + self.card.width);
        Some(rest)
    }
}
