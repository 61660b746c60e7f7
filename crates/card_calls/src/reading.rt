ghost use Rattle.std.specs.Prelude.{◌≡◌, IfOk, Some, Ok, length, string_bytes, ◌==◌};
ghost use Rattle.script.specs.Reasons.{Holds};
ghost use Rattle.script.specs.Words.{left};
ghost use Rattle.script.specs.declared.ReaderCall.TheVariants.{Check, Sheet, Find};
ghost use Rattle.cards.specs.Faults.{and_then, told};
ghost use Rattle.cards.specs.Reader.{check as check_of, scratch_after};
ghost use Rattle.reader.specs.Cards.{shown};
ghost use Rattle.card_calls.specs.Readings.{all_are, is_wiped, scratch_word, check_in, counted, check_text, check_said, sheet_in, read_answer, read_buffer, head_line, sheet_text, sheet_said, find_with, find_text, find_said, FoundAlone, reader_over, reader_asked};

use crate::front::front_of;
use crate::versions::read_sealer;
use cards::CardFault;
use reader::{Card, SheetHead, check, find, sheet};
use script::{Hex, ReaderCall, Unread, Words, read_bytes, read_cell, read_number};
use sealer::{SCRATCH_BYTES, Sealer};
use sealers::SealerName;
use spoc_sealer::{BenchSealer, Spoc64Sealer, Spoc128Sealer};
use std::alloc::{AllocError, Global};
use std::fmt;

/// What a buffer is filled with before a call, so that what the call left alone shows (docs/workbench.md).
pub const FILLER: u8 = 0xA5;

// Whether all bytes are this one.
fn all_are(bytes: &[u8], value: u8) -> bool
    ensures { result ≡ all_are value bytes.now }
{
    bytes.iter().all(|b| *b == value)
}

// Whether the bytes that test and check wipe are zero, and those beyond them as they were.
fn is_wiped(scratch: &[u8]) -> bool
    ensures { result ≡ is_wiped scratch.now }
{
    match scratch.split_at_checked(SCRATCH_BYTES) {
        Some((front, rest)) => all_are(front, 0) & all_are(rest, FILLER),
        None => false,
    }
}

/// What is said of a scratch after test or check, which was filled with `FILLER` before the call
/// (docs/workbench.md): `zero` where it has `SCRATCH_BYTES` or more, these are zero and the rest is as it
/// was; `kept` where all of it is; `other` else.
pub fn scratch_word(scratch: &[u8]) -> &'static str
    ensures { result.now ≡ scratch_word scratch.now }
{
    if is_wiped(scratch) {
        "zero"
    } else if all_are(scratch, FILLER) {
        "kept"
    } else {
        "other"
    }
}

// What check answered, with the number of sheets, and its scratch.
#[derive(Drop)]
struct CheckRun {
    answer: Result<usize, CardFault>,
    scratch: Vec<u8>,
}

impl fmt::Display for CheckRun {
    ghost output = { λ x. Some (check_text (check_in x)) };

    #[tactic(auto, unfolding(crate::specs::Readings::check_text))]
    fn fmt<W: fmt::Write>(&self, f: &mut fmt::Formatter<W>) -> fmt::Result {
        let word = scratch_word(self.scratch.as_slice());
        match self.answer {
            Ok(count) => writeln!(f, "checked {count}\nscratch {word}"),
            Err(fault) => writeln!(f, "{fault}\nscratch {word}"),
        }
    }
}

// What sheet answered of a sheet, or check where that refuses, and the buffer.
#[derive(Drop)]
struct SheetRun {
    number: usize,
    answer: Result<SheetHead, CardFault>,
    buffer: Vec<u8>,
}

// The line of a sheet.
#[derive(Clone, Copy)]
struct HeadLine<'a> {
    number: usize,
    head: SheetHead,
    buffer: &'a [u8],
}

impl fmt::Display for HeadLine<'_> {
    ghost output = { λ l. Some (head_line l.number l.buffer.now l.head) };

    fn fmt<W: fmt::Write>(&self, f: &mut fmt::Formatter<W>) -> fmt::Result {
        let number = self.number;
        let SheetHead {
            cell,
            edition,
            length,
        } = self.head;
        let body = Hex(front_of(self.buffer, length));
        writeln!(
            f,
            "sheet {number} cell {cell} edition {edition} length {length} body {body}"
        )
    }
}

impl fmt::Display for SheetRun {
    ghost output = { λ x. Some (sheet_text (sheet_in x)) };

    #[tactic(auto, unfolding(crate::specs::Readings::sheet_text))]
    fn fmt<W: fmt::Write>(&self, f: &mut fmt::Formatter<W>) -> fmt::Result {
        let whole = self.buffer.as_slice();
        let buffer = Hex(whole);
        match self.answer {
            Ok(head) => {
                let line = HeadLine {
                    number: self.number,
                    head,
                    buffer: whole,
                };
                writeln!(f, "{line}buffer {buffer}")
            }
            Err(fault) => writeln!(f, "{fault}\nbuffer {buffer}"),
        }
    }
}

// What find answered, or check where that refuses.
#[derive(Clone, Copy)]
struct Finding(Result<Option<usize>, CardFault>);

impl fmt::Display for Finding {
    ghost output = { λ x. Some (find_text (told x.0)) };

    #[tactic(auto, unfolding(crate::specs::Readings::find_text))]
    fn fmt<W: fmt::Write>(&self, f: &mut fmt::Formatter<W>) -> fmt::Result {
        match self.0 {
            Ok(Some(i)) => writeln!(f, "found {i}"),
            Ok(None) => writeln!(f, "none"),
            Err(fault) => writeln!(f, "{fault}"),
        }
    }
}

// A key, and the bytes of a card.
#[derive(Clone, Copy)]
struct Given<'a> {
    key: &'a [u8],
    bytes: &'a [u8],
}

impl<'a> Given<'a> {
    // Checks the card, and counts its sheets.
    fn count<C: Sealer>(&self, scratch: &mut [u8]) -> Result<usize, CardFault>
        ensures answer { told result ≡ counted
            (check_of C.meaning self.now.key.now (length scratch.old) self.now.bytes.now) }
        ensures scratch { scratch.new ≡ scratch_after self.now.key.now scratch.old }
    {
        let mut card = Card::empty();
        check::<C>(self.key, self.bytes, scratch, &mut card)?;
        Ok(card.count())
    }

    // The card, where check passes it.
    #[tactic(auto, using(crate::proofs::Readers::passed_is, crate::proofs::Readers::refused_is))]
    fn card<C: Sealer>(&self) -> Result<Card<'a>, CardFault>
        ensures { and_then (told result) (λ c. Ok (shown c)) ≡
            check_of C.meaning self.now.key.now 16 self.now.bytes.now }
    {
        let mut scratch = [0; SCRATCH_BYTES];
        let mut card = Card::empty();
        check::<C>(self.key, self.bytes, &mut scratch, &mut card)?;
        Ok(card)
    }

    // Checks the card, and reads sheet i.
    fn read<C: Sealer>(&self, i: usize, buffer: &mut [u8]) -> Result<SheetHead, CardFault>
        ensures answer { told result ≡ read_answer C.meaning
            (check_of C.meaning self.now.key.now 16 self.now.bytes.now) i buffer.old }
        ensures buffer { buffer.new ≡ read_buffer C.meaning
            (check_of C.meaning self.now.key.now 16 self.now.bytes.now) i buffer.old }
    {
        let card = self.card::<C>()?;
        sheet::<C>(&card, i, buffer)
    }

    // Checks the card, and finds the sheet with a cell.
    #[tactic(auto, unfolding(crate::specs::Readings::find_with))]
    fn find<C: Sealer>(&self, cell: u32) -> Result<Option<usize>, CardFault>
        ensures { told result ≡ find_with C.meaning self.now.key.now cell self.now.bytes.now }
    {
        let card = self.card::<C>()?;
        Ok(find(&card, cell))
    }

    // Checks the card with a scratch of this length, and says what was answered.
    #[tactic(auto, unfolding(crate::specs::Readings::check_said))]
    fn answer_check<C: Sealer>(&self, heap: Global, room: usize) -> Result<String, AllocError>
        ensures { IfOk result (λ t. string_bytes t ≡
            check_said C.meaning self.now.key.now self.now.bytes.now room) }
    {
        let mut scratch = vec![in heap; FILLER; room]?;
        let answer = self.count::<C>(scratch.as_mut_slice());
        CheckRun { answer, scratch }.to_string(heap)
    }

    // Reads sheet i into a buffer of this length, and says what was answered.
    #[tactic(auto, unfolding(crate::specs::Readings::sheet_said))]
    fn answer_sheet<C: Sealer>(
        &self,
        heap: Global,
        i: usize,
        room: usize,
    ) -> Result<String, AllocError>
        ensures { IfOk result (λ t. string_bytes t ≡
            sheet_said C.meaning self.now.key.now i room self.now.bytes.now) }
    {
        let mut buffer = vec![in heap; FILLER; room]?;
        let answer = self.read::<C>(i, buffer.as_mut_slice());
        let run = SheetRun {
            number: i,
            answer,
            buffer,
        };
        run.to_string(heap)
    }

    // Finds a cell, and says what was answered.
    #[tactic(auto, unfolding(crate::specs::Readings::find_said))]
    fn answer_find<C: Sealer>(&self, heap: Global, cell: u32) -> Result<String, AllocError>
        ensures { IfOk result (λ t. string_bytes t ≡
            find_said C.meaning self.now.key.now cell self.now.bytes.now) }
    {
        Finding(self.find::<C>(cell)).to_string(heap)
    }
}

// KEY CARD SCRATCH
fn call_check<C: Sealer>(heap: Global, mut words: Words) -> Result<String, Unread>
    ensures { Holds string_bytes result (reader_over C.meaning Check (left words.entry)) }
{
    let key = read_bytes(heap, words.next_word()?)?;
    let bytes = read_bytes(heap, words.next_word()?)?;
    let room = read_number(words.next_word()?)?;
    words.finish()?;
    let given = Given {
        key: key.as_slice(),
        bytes: bytes.as_slice(),
    };
    Ok(given.answer_check::<C>(heap, room as usize)?)
}

// KEY I LENGTH CARD
fn call_sheet<C: Sealer>(heap: Global, mut words: Words) -> Result<String, Unread>
    ensures { Holds string_bytes result (reader_over C.meaning Sheet (left words.entry)) }
{
    let key = read_bytes(heap, words.next_word()?)?;
    let i = read_number(words.next_word()?)?;
    let room = read_number(words.next_word()?)?;
    let bytes = read_bytes(heap, words.next_word()?)?;
    words.finish()?;
    let given = Given {
        key: key.as_slice(),
        bytes: bytes.as_slice(),
    };
    Ok(given.answer_sheet::<C>(heap, i as usize, room as usize)?)
}

// KEY CELL CARD
fn call_find<C: Sealer>(heap: Global, mut words: Words) -> Result<String, Unread>
    ensures { Holds string_bytes result (reader_over C.meaning Find (left words.entry)) }
{
    let key = read_bytes(heap, words.next_word()?)?;
    let cell = read_cell(words.next_word()?)?;
    let bytes = read_bytes(heap, words.next_word()?)?;
    words.finish()?;
    let given = Given {
        key: key.as_slice(),
        bytes: bytes.as_slice(),
    };
    Ok(given.answer_find::<C>(heap, cell)?)
}

// Makes a call of the reader over a sealer, from the words after the version.
fn call_over<C: Sealer>(heap: Global, call: ReaderCall, words: Words) -> Result<String, Unread>
    ensures { Holds string_bytes result (reader_over C.meaning call (left words.entry)) }
{
    match call {
        ReaderCall::Check => call_check::<C>(heap, words),
        ReaderCall::Sheet => call_sheet::<C>(heap, words),
        ReaderCall::Find => call_find::<C>(heap, words),
    }
}

/// Reads a version and the words after it, makes a call of the reader over the version's sealer, and answers
/// the text that is printed, a line or more (docs/workbench.md).
///
/// A refusal of the call is part of the text. An error is the first thing that can't be read, from left to
/// right, or `Memory`, where there is none. The answer of find that is printed is the only one that find's
/// contract allows: the clause `found`.
#[tactic(auto, using(crate::proofs::Finding::found_alone))]
pub fn call_reader(heap: Global, call: ReaderCall, mut words: Words) -> Result<String, Unread>
    ensures text { Holds string_bytes result (reader_asked call (left words.entry)) }
    ensures found { FoundAlone }
{
    // A match on the name for each generic function, here and in the workbench's call_sealer, as the sealer
    // is a type.
    match read_sealer(words.next_word()?)? {
        SealerName::Spoc64 => call_over::<Spoc64Sealer>(heap, call, words),
        SealerName::Spoc128 => call_over::<Spoc128Sealer>(heap, call, words),
        SealerName::Bench => call_over::<BenchSealer>(heap, call, words),
    }
}
