ghost use Rattle.std.specs.Prelude.{◌≡◌};
ghost use Rattle.cards.specs.Kinds.{kind_byte, kind_read};

use crate::fault::RecordNo;

/// The kind of a record, which is its head's first byte; any other byte is refused with 13 (docs/cards.md).
#[derive(Clone, Copy, Debug, PartialEq, Eq)]
pub enum Kind {
    /// A sheet of a chart.
    Sheet = 1,
    /// The end record, whose cell is how many sheets there are.
    End = 2,
}

impl From<Kind> for u8 {
    ghost from_gives = { λ kind byte. byte ≡ kind_byte kind };

    fn from(kind: Kind) -> u8 {
        kind as u8
    }
}

impl TryFrom<u8> for Kind {
    type Error = RecordNo;

    ghost try_from_gives = { λ byte kind. kind ≡ kind_read byte };

    fn try_from(byte: u8) -> Result<Kind, RecordNo> {
        match byte {
            1 => Ok(Kind::Sheet),
            2 => Ok(Kind::End),
            _ => Err(RecordNo::Kind),
        }
    }
}
