ghost use Rattle.std.specs.Prelude.{◌≡◌, List, ◌++◌, ◌∷◌, [], Ok, Some, IfSome, OnOk, drop, ◌≢◌};
ghost use Rattle.streams.specs.Fronts.{Writes, LosesFront};
ghost use Rattle.cards.specs.Faults.{at, told, of_card, refused_text};
ghost use Rattle.cards.specs.Format.{Sheet};
ghost use Rattle.cards.specs.declared.CardFault.TheVariants as card;
ghost use Rattle.cards.specs.declared.CardNo.TheVariants.{Version};
ghost use Rattle.reader.specs.Cards.{shown};
ghost use Rattle.lister.specs.declared.listing.Unlisted.TheVariants.{Refused, Unwritten};
ghost use Rattle.lister.specs.Printed.{card_line, sheet_line, sheet_lines, listed, header_asked, card_listed, input_listed, listing_text, Prints, Holds};

use cards::{CardFault, CardNo, HEADER_BYTES, MARK, MOST_BODY};
use reader::{Card, SheetHead, check, sheet};
use sealer::{SCRATCH_BYTES, SealFault, Sealer};
use sealers::{NoSuchVersion, SealerName};
use spoc_sealer::{BenchSealer, Spoc64Sealer, Spoc128Sealer};
use std::io::{Read, Write};
use std::{fmt, io};
use streams::{read_front, write_line};

/// The most bytes of an input: 16 of the key, and a card of 65,536.
pub const MOST_INPUT: usize = 65552;

// Version and card number of a card.
#[derive(Clone, Copy)]
struct Header {
    version: u16,
    number: u64,
}

// The questions on the header that come before the sealer is known; check asks them again, as it promises.
impl TryFrom<&[u8]> for Header {
    type Error = CardFault;

    ghost try_from_gives = { λ bytes r. told r ≡ header_asked bytes.now };

    fn try_from(bytes: &[u8]) -> Result<Header, CardFault> {
        let header = bytes
            .first_chunk::<HEADER_BYTES>()
            .ok_or(CardNo::Cut.at(0, 0))?;
        let [s, e, a, v0, v1, c0, c1, c2, c3, c4, c5, c6, c7] = *header;
        if [s, e, a] != *MARK {
            return Err(CardNo::Mark.at(0, 0));
        }
        Ok(Header {
            version: u16::from_be_bytes([v0, v1]),
            number: u64::from_be_bytes([c0, c1, c2, c3, c4, c5, c6, c7]),
        })
    }
}

// Why an input is not listed.
#[derive(Drop)]
enum Unlisted {
    Refused(CardFault),
    Unwritten(io::Error),
}

impl From<CardFault> for Unlisted {
    ghost from_gives = { λ f r. r ≡ Refused f };

    fn from(fault: CardFault) -> Unlisted {
        Unlisted::Refused(fault)
    }
}

impl From<NoSuchVersion> for Unlisted {
    ghost from_gives = { λ _ r. r ≡ Refused (card.Own (at Version 0 3)) };

    fn from(_none: NoSuchVersion) -> Unlisted {
        Unlisted::Refused(CardNo::Version.at(0, 3))
    }
}

impl From<io::Error> for Unlisted {
    ghost from_gives = { λ e r. r ≡ Unwritten e };

    fn from(e: io::Error) -> Unlisted {
        Unlisted::Unwritten(e)
    }
}

// The line of a card.
#[derive(Clone, Copy)]
struct CardLine {
    number: u64,
    version: u16,
    sheets: usize,
}

impl fmt::Display for CardLine {
    ghost output = { λ l. Some (card_line l.number l.version l.sheets) };

    fn fmt<W: fmt::Write>(&self, f: &mut fmt::Formatter<W>) -> fmt::Result {
        let CardLine {
            number,
            version,
            sheets,
        } = self;
        writeln!(f, "card {number} version {version} sheets {sheets}")
    }
}

// The line of a sheet.
#[derive(Clone, Copy)]
struct SheetLine {
    i: usize,
    head: SheetHead,
}

impl fmt::Display for SheetLine {
    ghost output = { λ l. Some (sheet_line l.i l.head.cell l.head.edition l.head.«length») };

    fn fmt<W: fmt::Write>(&self, f: &mut fmt::Formatter<W>) -> fmt::Result {
        let SheetLine { i, head } = self;
        let SheetHead {
            cell,
            edition,
            length,
        } = head;
        writeln!(f, "sheet {i} cell {cell} edition {edition} length {length}")
    }
}

// The line of a refusal.
#[derive(Clone, Copy)]
struct RefusedLine(CardFault);

impl fmt::Display for RefusedLine {
    ghost output = { λ l. Some (refused_text (of_card l.0) ++ 10 ∷ []) };

    fn fmt<W: fmt::Write>(&self, f: &mut fmt::Formatter<W>) -> fmt::Result {
        writeln!(f, "{}", self.0)
    }
}

// Writes the lines of a card's sheets, which are asked for by their numbers.
fn list_sheets<C: Sealer, W: Write>(card: &Card<'_>, out: &mut W) -> Result<(), Unlisted>
    ensures { (xs : List Sheet) → Holds C.meaning (shown card.now) xs →
        Prints result (W.contents out.old) (W.contents out.new) (Ok (sheet_lines 0 xs)) }
{
    let mut buffer = [0; MOST_BODY];
    for i in 0..card.count() {
        let head = sheet::<C>(card, i, &mut buffer)?;
        write_line(out, SheetLine { i, head })?;
    }
    Ok(())
}

// Writes what is printed of a card under a sealer.
fn list_under<C: Sealer, W: Write>(
    key: &[u8; 16],
    number: u64,
    bytes: &[u8],
    out: &mut W,
) -> Result<(), Unlisted>
    ensures { Prints result (W.contents out.old) (W.contents out.new)
        (listed C.meaning key.now number bytes.now) }
{
    let mut scratch = [0; SCRATCH_BYTES];
    let mut card = Card::empty();
    check::<C>(key, bytes, &mut scratch, &mut card)?;
    let line = CardLine {
        number,
        version: C::VERSION,
        sheets: card.count(),
    };
    write_line(out, line)?;
    list_sheets::<C, W>(&card, out)
}

// Writes what is printed of a card: its version picks the sealer.
fn list_card<W: Write>(key: &[u8; 16], bytes: &[u8], out: &mut W) -> Result<(), Unlisted>
    ensures { Prints result (W.contents out.old) (W.contents out.new) (card_listed key.now bytes.now) }
{
    let Header { version, number } = Header::try_from(bytes)?;
    match SealerName::try_from(version)? {
        SealerName::Spoc64 => list_under::<Spoc64Sealer, W>(key, number, bytes, out),
        SealerName::Spoc128 => list_under::<Spoc128Sealer, W>(key, number, bytes, out),
        SealerName::Bench => list_under::<BenchSealer, W>(key, number, bytes, out),
    }
}

// Writes what is printed of an input that is not refused.
fn list_input<W: Write>(input: &[u8], out: &mut W) -> Result<(), Unlisted>
    ensures { Prints result (W.contents out.old) (W.contents out.new) (input_listed input.now) }
{
    let (key, bytes) = input
        .split_first_chunk::<16>()
        .ok_or(CardFault::of_cipher(SealFault::KeyLength))?;
    if input.len() > MOST_INPUT {
        return Err(Unlisted::Refused(CardFault::of_cipher(SealFault::TooLong)));
    }
    list_card(key, bytes, out)
}

/// Writes what is printed of an input: the card's lines, or only why it is refused. A failed write leaves a front of
/// that text.
pub fn list<W: Write>(input: &[u8], out: &mut W) -> io::Result<()>
    ensures { Writes result (W.contents out.old) (W.contents out.new) (listing_text input.now) }
{
    match list_input(input, out) {
        Ok(()) => Ok(()),
        Err(Unlisted::Refused(fault)) => write_line(out, RefusedLine(fault)),
        Err(Unlisted::Unwritten(e)) => Err(e),
    }
}

/// The whole program: reads an input and writes its listing. It reads one byte more than an input may have, and no
/// further. A failed read leaves nothing written, a failed write a front of the listing.
pub fn run<R: Read, W: Write>(source: &mut R, out: &mut W) -> io::Result<()>
    ensures written { IfSome (R.remaining source.old) (λ input.
        Writes result (W.contents out.old) (W.contents out.new) (listing_text input)) }
    ensures read { OnOk result (IfSome (R.remaining source.old) (λ input.
        R.remaining source.new ≡ Some (drop 65553 input))) }
    ensures lost { LosesFront 65553 (R.remaining source.old) (R.remaining source.new) }
    ensures unread { IfSome (R.remaining source.old) (λ input.
        R.remaining source.new ≢ Some (drop 65553 input)
        → W.contents out.new ≡ W.contents out.old) }
{
    let mut input = [0; MOST_INPUT + 1];
    let length = read_front(source, &mut input)?;
    list(&input[..length], out)
}
