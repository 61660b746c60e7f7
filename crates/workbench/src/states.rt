ghost use Rattle.std.specs.Prelude.{◌≡◌, IfOk, Some, string_bytes};
ghost use Rattle.script.specs.Reasons.{Holds};
ghost use Rattle.script.specs.Words.{left};
ghost use Rattle.script.specs.declared.PermutationCall.TheVariants.{ForwardBy, BackBy, Page};
ghost use Rattle.workbench.specs.States.{state_text, steps_text, step_text, trace_text, page_with, state_of, last_state, state_asked};

use card_calls::FILLER;
use permutations::{Permutation, TooManySteps, diffusion_page};
use script::{Hex, PermutationCall, PermutationName, Unread, Words, read_bytes, read_number};
use std::alloc::{AllocError, Global};
use std::fmt::Write;
use std::{fmt, str};

// The line that shows a state: all that forward and back answer, so it is a String at once.
fn state_line(heap: Global, state: &[u8]) -> Result<String, AllocError>
    ensures { IfOk result (λ t. string_bytes t ≡ state_text state.now) }
{
    let state = Hex(state);
    format!(in heap; "state {state}\n")
}

// What forward or back by a number of steps answered, and the state after it.
#[derive(Clone, Copy)]
struct Stepped<'a> {
    answer: Result<(), TooManySteps>,
    state: Hex<'a>,
}

impl fmt::Display for Stepped<'_> {
    ghost output = { λ s. Some (steps_text s.answer s.state.0.now) };

    fn fmt<W: fmt::Write>(&self, f: &mut fmt::Formatter<W>) -> fmt::Result {
        let state = self.state;
        match self.answer {
            Ok(()) => writeln!(f, "state {state}"),
            Err(fault) => writeln!(f, "{fault}\nstate {state}"),
        }
    }
}

// A line of a trace: the state after so many steps.
#[derive(Clone, Copy)]
struct Step<'a> {
    number: usize,
    state: Hex<'a>,
}

impl fmt::Display for Step<'_> {
    ghost output = { λ s. Some (step_text s.number s.state.0.now) };

    fn fmt<W: fmt::Write>(&self, f: &mut fmt::Formatter<W>) -> fmt::Result {
        let Step { number, state } = self;
        writeln!(f, "step {number} {state}")
    }
}

// The state, and the states after its first steps, up to all of them.
fn trace<const B: usize, P: Permutation<B>>(
    heap: Global,
    state: &[u8; B],
) -> Result<String, AllocError>
    ensures { IfOk result (λ t. string_bytes t ≡ trace_text P.Bijection.meaning P.Bijection.meaning.full state.now) }
{
    let begun = Step {
        number: 0,
        state: Hex(state),
    };
    let mut text = begun.to_string(heap)?;
    for i in 0..P::STEPS {
        let mut after = *state;
        // There are so many steps, so no refusal can come.
        let _ = P::forward_by(&mut after, i + 1);
        let step = Step {
            number: i + 1,
            state: Hex(&after),
        };
        write!(text, "{step}")?;
    }
    Ok(text)
}

// A state has B bytes.
fn state_of<const B: usize>(of: PermutationName, bytes: &[u8]) -> Result<[u8; B], Unread>
    ensures { result ≡ state_of of B bytes.now }
{
    <[u8; B]>::try_from(bytes).ok().ok_or(Unread::StateLength {
        of,
        expected: B,
        found: bytes.len(),
    })
}

// Reads a state, the last word.
fn read_last_state<const B: usize>(
    heap: Global,
    of: PermutationName,
    mut words: Words,
) -> Result<[u8; B], Unread>
    ensures { Holds (λ s. s) result (last_state of B (left words.entry)) }
{
    let bytes = read_bytes(heap, words.next_word()?)?;
    words.finish()?;
    state_of::<B>(of, bytes.as_slice())
}

// The words of forward-by: S STATE.
#[tactic(auto, unfolding(crate::specs::States::state_asked))]
fn call_forward_by<const B: usize, P: Permutation<B>>(
    heap: Global,
    of: PermutationName,
    mut words: Words,
) -> Result<String, Unread>
    ensures { Holds string_bytes result (state_asked of P.Bijection.meaning ForwardBy (left words.entry)) }
{
    let s = read_number(words.next_word()?)?;
    let mut state = read_last_state::<B>(heap, of, words)?;
    let answer = P::forward_by(&mut state, s as usize);
    let stepped = Stepped {
        answer,
        state: Hex(&state),
    };
    Ok(stepped.to_string(heap)?)
}

// Those of back-by: the same.
#[tactic(auto, unfolding(crate::specs::States::state_asked))]
fn call_back_by<const B: usize, P: Permutation<B>>(
    heap: Global,
    of: PermutationName,
    mut words: Words,
) -> Result<String, Unread>
    ensures { Holds string_bytes result (state_asked of P.Bijection.meaning BackBy (left words.entry)) }
{
    let s = read_number(words.next_word()?)?;
    let mut state = read_last_state::<B>(heap, of, words)?;
    let answer = P::back_by(&mut state, s as usize);
    let stepped = Stepped {
        answer,
        state: Hex(&state),
    };
    Ok(stepped.to_string(heap)?)
}

// Writes a page into a buffer of this length, and shows what is in it.
fn page<const B: usize, P: Permutation<B>>(
    heap: Global,
    state: &[u8; B],
    s: usize,
    room: usize,
) -> Result<String, AllocError>
    ensures { IfOk result (λ t. string_bytes t ≡ page_with P.Bijection.meaning s state.now room) }
{
    let mut buffer = vec![in heap; FILLER; room]?;
    match diffusion_page::<B, P>(state, s, buffer.as_mut_slice()) {
        Ok(length) => {
            let (page, rest) = buffer.as_slice().split_at(length);
            // A page is ASCII.
            let page = str::from_utf8(page).unwrap();
            let rest = Hex(rest);
            format!(in heap; "{page}rest {rest}\n")
        }
        Err(fault) => {
            let rest = Hex(buffer.as_slice());
            format!(in heap; "{fault}\nrest {rest}\n")
        }
    }
}

// The words of page: S STATE ROOM.
#[tactic(auto, unfolding(crate::specs::States::state_asked))]
fn call_page<const B: usize, P: Permutation<B>>(
    heap: Global,
    of: PermutationName,
    mut words: Words,
) -> Result<String, Unread>
    ensures { Holds string_bytes result (state_asked of P.Bijection.meaning Page (left words.entry)) }
{
    let s = read_number(words.next_word()?)?;
    let bytes = read_bytes(heap, words.next_word()?)?;
    let room = read_number(words.next_word()?)?;
    words.finish()?;
    let state = state_of::<B>(of, bytes.as_slice())?;
    Ok(page::<B, P>(heap, &state, s as usize, room as usize)?)
}

// Makes a call on a state of a permutation, from the words after its name.
#[tactic(auto, unfolding(crate::specs::States::state_asked))]
pub(crate) fn call_on<const B: usize, P: Permutation<B>>(
    heap: Global,
    call: PermutationCall,
    of: PermutationName,
    words: Words,
) -> Result<String, Unread>
    ensures { Holds string_bytes result (state_asked of P.Bijection.meaning call (left words.entry)) }
{
    match call {
        PermutationCall::Forward => {
            let mut state = read_last_state::<B>(heap, of, words)?;
            P::forward(&mut state);
            Ok(state_line(heap, &state)?)
        }
        PermutationCall::Back => {
            let mut state = read_last_state::<B>(heap, of, words)?;
            P::back(&mut state);
            Ok(state_line(heap, &state)?)
        }
        PermutationCall::Trace => {
            let state = read_last_state::<B>(heap, of, words)?;
            Ok(trace::<B, P>(heap, &state)?)
        }
        PermutationCall::ForwardBy => call_forward_by::<B, P>(heap, of, words),
        PermutationCall::BackBy => call_back_by::<B, P>(heap, of, words),
        PermutationCall::Page => call_page::<B, P>(heap, of, words),
    }
}
