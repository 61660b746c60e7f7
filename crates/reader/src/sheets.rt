ghost use Rattle.std.specs.Prelude.{◌≡◌, ℕ, ◌+◌, ◌<◌, ◌≤◌, List, length, drop, Ok};
ghost use Rattle.cards.specs.Faults.{told};
ghost use Rattle.cards.specs.Reader.{check as check_of, place_of, sheet_drawn};
ghost use Rattle.reader.specs.Cards.{shown};
ghost use Rattle.reader.specs.Heads.{headed, NoMismatch};

use crate::card::Card;
use crate::key::{CardKey, front};
use crate::rest::{Rest, SheetHead};
use cards::{CardFault, CardNo, HEADER_BYTES};
use sealer::Sealer;

impl<'a> Card<'a> {
    // The rest from record i on.
    pub(crate) fn rest_at(&self, i: usize) -> Rest<'a>
        requires { i < self.now.count }
        ensures place { result.place ≡ place_of self.now.width self.now.bytes.now i }
        ensures bytes { result.bytes.now ≡
            drop (place_of self.now.width self.now.bytes.now i) self.now.bytes.now }
        ensures number { result.number ≡ i }
    {
        self.sheets().nth(i).unwrap()
    }
}

/// Opens sheet i of a card: its body goes to the front of the buffer, and its cell, edition and length are
/// the answer (docs/cards.md).
///
/// Are the card's version and width the sealer's (12)? Is i below the count (16)? Is the buffer at least as
/// long as the body (4)? Does the tag agree (6)? The first no is the answer; its record is i, however large,
/// and its place is 0 for 12 and 16, and where the body begins for 4 and 6.
///
/// After 12, 16 and 4 the buffer is as it was; after 6 its first bytes, as many as the body has, are zero;
/// bytes beyond the body's length always stay.
///
/// The sealer that passed check never finds that the tag disagrees (6). The empty card is always refused
/// with 12.
pub fn sheet<C: Sealer>(
    card: &Card<'_>,
    i: usize,
    buffer: &mut [u8],
) -> Result<SheetHead, CardFault>
    ensures answer { told result ≡
        headed (sheet_drawn C.meaning (shown card.now) i buffer.old).answer }
    ensures buffer { buffer.new ≡ (sheet_drawn C.meaning (shown card.now) i buffer.old).buffer }
    ensures agrees { (key : List ℕ) (scratch : ℕ) (bytes : List ℕ) →
        check_of C.meaning key scratch bytes ≡ Ok (shown card.now) → NoMismatch (told result) }
{
    if card.version != C::VERSION || card.width != C::WIDTH {
        return Err(CardNo::Version.at(i, 0));
    }
    if i >= card.count {
        return Err(CardNo::Number.at(i, 0));
    }
    let key = CardKey {
        key: &card.key,
        header: front::<HEADER_BYTES>(card.bytes),
    };
    Ok(key.open_sheet::<C>(&card.rest_at(i), buffer)?)
}
