ghost use Rattle.std.specs.Prelude.{◌≡◌, ◌+◌, ◌*◌, ◌≤◌};

use cards::CardFault;
use std::marker::PhantomData;

/// A writer of one card (docs/cards.md): the sealer, the key and the header, how many sheets are written, and
/// where the next record begins.
///
/// The medium is no part of it: each call is handed one. It can't be copied, and `close` takes it.
#[derive(Drop)]
pub struct Writer<C> {
    pub(crate) sealer: PhantomData<C>,
    pub(crate) key: [u8; 16],
    pub(crate) header: [u8; 13],
    pub(crate) count: usize,
    pub(crate) place: usize,
    ghost few: { count ≤ 512 },
    ghost bound: { place ≤ 13 + count * 4121 },
}

/// A writer whose close was refused, and why (docs/cards.md).
#[derive(Drop)]
pub struct Unclosed<C> {
    /// The writer as it was before, so that it can be closed on a medium that is long enough.
    pub writer: Writer<C>,
    /// The refusal: 9 of layer 3; its record is how many sheets were accepted, and its place where the end
    /// record would begin.
    pub fault: CardFault,
}

impl<C> From<Unclosed<C>> for CardFault {
    ghost from_gives = { λ unclosed fault. fault ≡ unclosed.fault };

    fn from(unclosed: Unclosed<C>) -> CardFault {
        unclosed.fault
    }
}
