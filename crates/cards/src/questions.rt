ghost use Rattle.std.specs.Prelude.{◌≡◌};
ghost use Rattle.cards.specs.Questions.{sheet_questions};

use crate::fault::RecordNo;

/// The most sheets of a card (docs/cards.md).
pub const MOST_SHEETS: usize = 512;

/// The most bytes of a sheet's body (docs/cards.md).
pub const MOST_BODY: usize = 4096;

/// Asks the questions on a sheet, which append and check share (docs/cards.md): are there fewer than 512
/// sheets `before` it (8)? Has its `body` at most 4,096 bytes (7)? The first no is the answer.
pub fn ask_sheet(before: usize, body: usize) -> Result<(), RecordNo>
    ensures { result ≡ sheet_questions before body }
{
    if before >= MOST_SHEETS {
        return Err(RecordNo::SheetsFull);
    }
    if body > MOST_BODY {
        return Err(RecordNo::BodyLong);
    }
    Ok(())
}
