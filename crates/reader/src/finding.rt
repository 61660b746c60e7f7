ghost use Rattle.sealer.specs.Sealing.{Sealing};
ghost use Rattle.cards.specs.Claims.{FindTells};
ghost use Rattle.cards.specs.Reader.{Finds};
ghost use Rattle.reader.specs.Cards.{shown};

use crate::card::Card;

/// The number of the sheet with a cell and the highest edition, the first among equals, or none if the card
/// has no such cell (docs/cards.md).
///
/// It asks for no key and no sealer, opens nothing and refuses nothing; on the empty card the answer is none.
/// Where the card reads as a list of sheets, that is so of the list.
pub fn find(card: &Card<'_>, cell: u32) -> Option<usize>
    ensures finds { Finds (shown card.now) cell result }
    ensures tells { (S : Sealing) → FindTells S }
{
    // A loop and no max_by_key, which takes the last among equals.
    let mut best: Option<(usize, u16)> = None;
    for rest in card.sheets() {
        let head = rest.head();
        if head.cell == cell && best.is_none_or(|(_, top)| head.edition > top) {
            best = Some((rest.number, head.edition));
        }
    }
    best.map(|(i, _)| i)
}
