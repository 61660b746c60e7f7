ghost use Rattle.std.specs.Prelude.{◌≡◌, suc, ◌<◌, ◌≤◌, length};
ghost use Rattle.cards.specs.Reader.{place_of};

/// A checked card, or the empty one (docs/cards.md): the card's bytes, which it borrows, the key, the
/// sealer's version and width, and how many sheets there are.
///
/// Only `check` makes one with bytes. Its records run from byte 13 to its last byte without a gap.
#[derive(Clone, Copy)]
pub struct Card<'a> {
    pub(crate) bytes: &'a [u8],
    pub(crate) key: [u8; 16],
    pub(crate) version: u16,
    pub(crate) width: usize,
    pub(crate) count: usize,
    ghost runs: { 0 < length bytes.now → place_of width bytes.now (suc count) ≡ length bytes.now },
    ghost none: { length bytes.now ≡ 0 → count ≡ 0 },
    ghost small: { width ≤ 16 },
}
