ghost use Rattle.std.specs.Prelude.{◌≡◌, IfOk, None, string_bytes};
ghost use Rattle.std.specs.Option.{option_map};
ghost use Rattle.script.specs.Words.{words, left, with_next};
ghost use Rattle.script.specs.Names.{call_named};
ghost use Rattle.script.specs.declared.CallName.TheVariants.{Write, Writer};
ghost use Rattle.card_calls.specs.Writings.{draft_in};
ghost use Rattle.workbench.specs.Printed.{outside_card, turn_asked, a_turn, without_memory, kept, Answers, MayPrint, MayTurn, WordsMayTurn};

use crate::calls::{call_permutation, call_version};
use card_calls::{Draft, call_reader};
use script::{CallName, Unread, Words, WriterCall, is_silent, without_return};
use std::alloc::{AllocError, Global};

// The workbench between two lines: the card that is being written, if one is.
#[derive(Drop)]
pub struct Workbench {
    draft: Option<Draft>,
}

impl Workbench {
    pub fn new() -> Workbench
        ensures { option_map draft_in result.draft ≡ None }
    {
        Workbench { draft: None }
    }

    // Is no card being written? Here None is the good answer, as in Words::finish.
    fn ask_outside(&self) -> Result<(), Unread>
        ensures { result ≡ outside_card (option_map draft_in self.now.draft) }
    {
        match self.draft {
            None => Ok(()),
            Some(_) => Err(Unread::CardOpen),
        }
    }

    // Begins a card.
    fn begin(&mut self, heap: Global, words: Words) -> Result<String, Unread>
        ensures { Answers result (option_map draft_in self.old.draft) (option_map draft_in self.new.draft) (turn_asked (option_map draft_in self.old.draft) Write (left words.entry)) (without_memory Write (left words.entry) (option_map draft_in self.old.draft)) }
    {
        self.ask_outside()?;
        let draft = Draft::read(heap, words)?;
        self.draft = Some(draft);
        Ok(String::new(heap))
    }

    // Makes a line of the card that is being written.
    fn go_on(&mut self, heap: Global, call: WriterCall, words: Words) -> Result<String, Unread>
        ensures { Answers result (option_map draft_in self.old.draft) (option_map draft_in self.new.draft) (turn_asked (option_map draft_in self.old.draft) (Writer call) (left words.entry)) (without_memory (Writer call) (left words.entry) (option_map draft_in self.old.draft)) }
    {
        let Some(draft) = &mut self.draft else {
            return Err(Unread::NoCard);
        };
        match call {
            WriterCall::Append => draft.append(heap, words)?,
            WriterCall::Close => draft.close(words)?,
            WriterCall::End => {
                words.finish()?;
                let text = draft.answer(heap);
                self.draft = None;
                return Ok(text?);
            }
        }
        Ok(String::new(heap))
    }

    // Makes a call. Which are allowed depends on whether a card is being written.
    fn make(&mut self, heap: Global, call: CallName, words: Words) -> Result<String, Unread>
        ensures { Answers result (option_map draft_in self.old.draft) (option_map draft_in self.new.draft) (turn_asked (option_map draft_in self.old.draft) call (left words.entry)) (without_memory call (left words.entry) (option_map draft_in self.old.draft)) }
    {
        match call {
            CallName::Permutation(call) => {
                self.ask_outside()?;
                call_permutation(heap, call, words)
            }
            CallName::Cipher(call) => {
                self.ask_outside()?;
                call_version(heap, call, words)
            }
            CallName::Reader(call) => {
                self.ask_outside()?;
                call_reader(heap, call, words)
            }
            CallName::Write => self.begin(heap, words),
            CallName::Writer(call) => self.go_on(heap, call, words),
        }
    }

    // Reads a line's words from left to right, and makes the call.
    fn call(&mut self, heap: Global, line: &[u8]) -> Result<String, Unread>
        ensures { Answers result (option_map draft_in self.old.draft) (option_map draft_in self.new.draft) (with_next call_named (words line.now) (turn_asked (option_map draft_in self.old.draft))) (kept (option_map draft_in self.old.draft) (words line.now)) }
    {
        let mut words = Words::new(line);
        let call = CallName::try_from(words.next_word()?)?;
        self.make(heap, call, words)
    }

    // What a line that asks something prints. Where it finds no memory it says so.
    fn turn(&mut self, heap: Global, line: &[u8]) -> Result<String, AllocError>
        ensures { IfOk result (λ t. WordsMayTurn (option_map draft_in self.old.draft) (words line.now) (a_turn (string_bytes t) (option_map draft_in self.new.draft))) }
    {
        self.call(heap, line)
            .or_else(|reason| format!(in heap; "unread: {reason}\n"))
    }

    // What a line prints, each of its lines ended by a line feed, and the card that is being written after it.
    pub fn answer(&mut self, heap: Global, line: &[u8]) -> Result<String, AllocError>
        ensures turn { IfOk result (λ t. MayTurn (option_map draft_in self.old.draft) line.now (a_turn (string_bytes t) (option_map draft_in self.new.draft))) }
        ensures alone { option_map draft_in self.old.draft ≡ None → IfOk result (λ t. MayPrint line.now (string_bytes t)) }
    {
        let line = without_return(line);
        if is_silent(line) {
            return Ok(String::new(heap));
        }
        self.turn(heap, line)
    }
}
