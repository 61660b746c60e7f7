ghost use Rattle.std.specs.Prelude.{◌≡◌};
ghost use Rattle.cards.specs.Reader.{empty as empty_card};
ghost use Rattle.reader.specs.Cards.{shown};

use crate::card::Card;

impl<'a> Card<'a> {
    /// The empty card, for `check` to fill: no bytes and no sheets, and all else 0 (docs/cards.md).
    pub fn empty() -> Card<'a>
        ensures { shown result ≡ empty_card }
    {
        Card {
            bytes: &[],
            key: [0; 16],
            version: 0,
            width: 0,
            count: 0,
        }
    }

    /// How many sheets the card has; on the empty card 0.
    pub fn count(&self) -> usize
        ensures { result ≡ (shown self.now).count }
    {
        self.count
    }
}
