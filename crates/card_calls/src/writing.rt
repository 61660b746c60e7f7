ghost use Rattle.std.specs.Prelude.{◌≡◌, map, is_ok, IfOk, Some, if◌then◌else◌, string_bytes};
ghost use Rattle.script.specs.Reasons.{Holds};
ghost use Rattle.script.specs.Words.{left};
ghost use Rattle.cards.specs.Faults.{told};
ghost use Rattle.cards.specs.Plain.{Plain};
ghost use Rattle.cards.specs.Runs.{run as run_of};
ghost use Rattle.writer.specs.Replay.{plain_call};
ghost use Rattle.writer.specs.Stands.{Stands};
ghost use Rattle.card_calls.specs.Writings.{step_call, draft_in, draft_of, append_of, close_of, with_call, call_line, call_lines, write_on, written_in, written_text, draft_over, draft_text, Written, Adds};

use crate::front::front_of;
use crate::versions::read_sealer;
use cards::CardFault;
use script::{Hex, Unread, Words, read_byte, read_bytes, read_cell, read_edition, read_number};
use sealer::Sealer;
use sealers::SealerName;
use spoc_sealer::{BenchSealer, Spoc64Sealer, Spoc128Sealer};
use std::alloc::{AllocError, AllocFailed, Global};
use std::fmt;
use std::fmt::Write;
use writer::{Call, Writer, replay};

// A call of the writer, with its body.
#[derive(Drop)]
enum Step {
    Append {
        cell: u32,
        edition: u16,
        body: Vec<u8>,
    },
    Close,
}

impl Step {
    // This step as the writer takes it, its body borrowed.
    fn call(&self) -> Call<'_>
        ensures { plain_call result ≡ step_call self.now }
    {
        match self {
            Step::Append {
                cell,
                edition,
                body,
            } => Call::Append {
                cell: *cell,
                edition: *edition,
                body: body.as_slice(),
            },
            Step::Close => Call::Close,
        }
    }
}

// Reads CELL EDITION BODY.
fn read_append(heap: Global, mut words: Words) -> Result<Step, Unread>
    ensures { Holds step_call result (append_of (left words.entry)) }
{
    let cell = read_cell(words.next_word()?)?;
    let edition = read_edition(words.next_word()?)?;
    let body = read_bytes(heap, words.next_word()?)?;
    words.finish()?;
    Ok(Step::Append {
        cell,
        edition,
        body,
    })
}

/// A card that is being written: its sealer, what start is handed, and the calls after it
/// (docs/workbench.md).
///
/// Nothing is called before `answer`.
#[derive(Drop)]
pub struct Draft {
    sealer: SealerName,
    key: Vec<u8>,
    number: u64,
    size: usize,
    fill: u8,
    steps: Vec<Step>,
}

impl Draft {
    /// Reads VERSION KEY NUMBER SIZE FILL, the words of a `write` after its first. An error is the first
    /// thing that can't be read, from left to right, or `Memory`, where there is none.
    pub fn read(heap: Global, mut words: Words) -> Result<Draft, Unread>
        ensures { Holds draft_in result (draft_of (left words.entry)) }
    {
        let sealer = read_sealer(words.next_word()?)?;
        let key = read_bytes(heap, words.next_word()?)?;
        let number = read_number(words.next_word()?)?;
        let size = read_number(words.next_word()?)?;
        let fill = read_byte(heap, words.next_word()?)?;
        words.finish()?;
        Ok(Draft {
            sealer,
            key,
            number,
            size: size as usize,
            fill,
            steps: Vec::new(heap),
        })
    }

    // One step more. Where there is no memory for it, the draft stays as it was.
    fn add(&mut self, step: Step) -> Result<(), AllocFailed<Step>>
        ensures { draft_in self.new ≡
            (if is_ok result then with_call (draft_in self.old) (step_call step)
            else draft_in self.old) }
    {
        self.steps.push(step)
    }

    /// Reads CELL EDITION BODY, the words of an `append` after its first, and adds the call. Where they can't
    /// be read, or there is no memory, the draft stays as it was.
    pub fn append(&mut self, heap: Global, words: Words) -> Result<(), Unread>
        ensures { Adds result (draft_in self.old) (draft_in self.new)
            (append_of (left words.entry)) }
    {
        let step = read_append(heap, words)?;
        self.add(step)?;
        Ok(())
    }

    /// Adds a `close`, after which no word may follow. Where one does, or there is no memory, the draft stays
    /// as it was.
    pub fn close(&mut self, words: Words) -> Result<(), Unread>
        ensures { Adds result (draft_in self.old) (draft_in self.new)
            (close_of (left words.entry)) }
    {
        words.finish()?;
        self.add(Step::Close)?;
        Ok(())
    }

    // Starts a card on the medium, makes its calls, and says what was answered.
    fn write_on<C: Sealer>(&self, heap: Global, medium: &mut [u8]) -> Result<String, AllocError>
        ensures { IfOk result (λ t. ◌≡◌ {A = Written}
            record { lines = string_bytes t; medium = medium.new }
            (write_on C.meaning (draft_in self.now) medium.old)) }
    {
        let calls = calls_of(heap, self.steps.as_slice())?;
        match Writer::<C>::start(self.key.as_slice(), self.number, medium) {
            Ok(writer) => {
                let lines = run_calls::<C>(heap, writer, medium, calls.as_slice())?;
                format!(in heap; "started\n{lines}")
            }
            Err(fault) => format!(in heap; "{fault}\n"),
        }
    }

    // Writes the card on a new medium, under a sealer.
    fn answer_over<C: Sealer>(&self, heap: Global) -> Result<String, AllocError>
        ensures { IfOk result (λ t. string_bytes t ≡ draft_over C.meaning (draft_in self.now)) }
    {
        let mut medium = vec![in heap; self.fill; self.size]?;
        let lines = self.write_on::<C>(heap, medium.as_mut_slice())?;
        WriteRun { lines, medium }.to_string(heap)
    }

    /// Writes the card on a new medium, and answers what is printed (docs/workbench.md): a line for start and
    /// for each call that was made, and last what the medium holds. Only where there is no memory is the
    /// answer an error.
    pub fn answer(&self, heap: Global) -> Result<String, AllocError>
        ensures { IfOk result (λ t. string_bytes t ≡ draft_text (draft_in self.now)) }
    {
        match self.sealer {
            SealerName::Spoc64 => self.answer_over::<Spoc64Sealer>(heap),
            SealerName::Spoc128 => self.answer_over::<Spoc128Sealer>(heap),
            SealerName::Bench => self.answer_over::<BenchSealer>(heap),
        }
    }
}

// The steps as the writer takes them.
fn calls_of(heap: Global, steps: &[Step]) -> Result<Vec<Call<'_>>, AllocError>
    ensures { IfOk result (λ v. map plain_call v.items ≡ map step_call steps.now) }
{
    let mut calls = Vec::new(heap);
    for step in steps {
        calls.push(step.call())?;
    }
    Ok(calls)
}

// What a call answered, as a line.
#[derive(Clone, Copy)]
struct CallLine<'a> {
    call: Call<'a>,
    answer: Result<usize, CardFault>,
}

impl fmt::Display for CallLine<'_> {
    ghost output = { λ l. Some (call_line (plain_call l.call) (told l.answer)) };

    fn fmt<W: fmt::Write>(&self, f: &mut fmt::Formatter<W>) -> fmt::Result {
        match self.answer {
            Ok(n) => match self.call {
                Call::Append { .. } => writeln!(f, "record {n}"),
                Call::Close => writeln!(f, "closed {n}"),
            },
            Err(fault) => writeln!(f, "{fault}"),
        }
    }
}

// A line for each call that was made.
fn lines_of(
    heap: Global,
    calls: &[Call<'_>],
    answers: &[Result<usize, CardFault>],
) -> Result<String, AllocError>
    ensures { IfOk result (λ t. string_bytes t ≡
        call_lines (map plain_call calls.now) (map told answers.now)) }
{
    let mut text = String::new(heap);
    for (call, answer) in calls.iter().zip(answers) {
        let line = CallLine {
            call: *call,
            answer: *answer,
        };
        write!(text, "{line}")?;
    }
    Ok(text)
}

// Makes the calls, each with a slot for its answer, and says what each answered.
fn run_calls<C: Sealer>(
    heap: Global,
    writer: Writer<C>,
    medium: &mut [u8],
    calls: &[Call<'_>],
) -> Result<String, AllocError>
    ensures { (w : Plain) → Stands writer medium.old w → IfOk result (λ t.
        (string_bytes t ≡ call_lines (map plain_call calls.now)
        (run_of C.meaning w (map plain_call calls.now)).answers)
        × (medium.new ≡ (run_of C.meaning w (map plain_call calls.now)).medium)) }
{
    let mut answers = vec![in heap; Ok(0); calls.len()]?;
    let made = replay(writer, medium, calls, answers.as_mut_slice()).made;
    lines_of(heap, calls, front_of(answers.as_slice(), made))
}

// What was answered, a line for start and each call, and the medium after them.
#[derive(Drop)]
struct WriteRun {
    lines: String,
    medium: Vec<u8>,
}

impl fmt::Display for WriteRun {
    ghost output = { λ x. Some (written_text (written_in x)) };

    fn fmt<W: fmt::Write>(&self, f: &mut fmt::Formatter<W>) -> fmt::Result {
        let lines = self.lines.as_str();
        let medium = Hex(self.medium.as_slice());
        writeln!(f, "{lines}medium {medium}")
    }
}
