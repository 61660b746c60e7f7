ghost use Rattle.std.specs.Prelude.{◌≡◌, ◌+◌, ◌<◌, ◌≤◌, ◌^◌, length};
ghost use Rattle.reader.specs.Said.{of_part, sealed_body, sealed_tag};

/// What the head of a record says, but for its kind (docs/cards.md): of a sheet, what `sheet` answers.
#[derive(Clone, Copy, Debug, PartialEq, Eq)]
pub struct SheetHead {
    /// The sheet's cell.
    pub cell: u32,
    /// The sheet's edition.
    pub edition: u16,
    /// How many bytes the body has: of a sheet of a checked card at most 4,096.
    pub length: usize,
}

// A record, whose body and tag are parts of the card.
#[derive(Clone, Copy)]
pub(crate) enum Record<'a> {
    Sheet {
        cell: u32,
        edition: u16,
        body: &'a [u8],
        tag: &'a [u8],
    },
    End {
        tag: &'a [u8],
    },
}

impl<'a> Record<'a> {
    // What of it is sealed: its body, which an end has not, and its tag.
    pub(crate) fn sealed(self) -> (&'a [u8], &'a [u8])
        ensures body { result.0.now ≡ sealed_body (of_part self.entry) }
        ensures tag { result.1.now ≡ sealed_tag (of_part self.entry) }
    {
        match self {
            Record::Sheet { body, tag, .. } => (body, tag),
            Record::End { tag } => (&[], tag),
        }
    }
}

// The rest of a card from a record on, with the record's number and place. That a head is all there is asked
// by parse and known of a checked card, so three contracts ask it, and no field says it of every rest.
#[derive(Clone, Copy)]
pub(crate) struct Rest<'a> {
    pub(crate) bytes: &'a [u8],
    pub(crate) number: usize,
    pub(crate) place: usize,
    ghost ends: { place + length bytes.now < 2 ^ 64 },
    ghost numbered: { number ≤ place },
}
