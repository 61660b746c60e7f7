ghost use Rattle.std.specs.Prelude.{◌≡◌, IfOk, Some, string_bytes};
ghost use Rattle.script.specs.Reasons.{Holds};
ghost use Rattle.script.specs.Words.{left};
ghost use Rattle.script.specs.declared.CipherCall.TheVariants.{Seal, Open, SealInto, OpenInto, Test};
ghost use Rattle.sealer.specs.Fault.{fault_number, fault_layer};
ghost use Rattle.workbench.specs.Sealings.{inputs_in, seal_in, open_in, test_in, seal_with, open_with, test_with, refused_text, first_line, seal_text, open_text, seal_into_text, open_into_text, test_text, inputs_of, given_asked, cipher_asked};

use card_calls::{FILLER, scratch_word};
use script::{CipherCall, Hex, Unread, Words, read_bytes, read_number};
use sealer::{SealFault, Sealer};
use std::alloc::{AllocError, Global};
use std::fmt;

// What a call of the cipher is given: the text is a message or a ciphertext.
#[derive(Drop)]
struct Given {
    key: Vec<u8>,
    nonce: Vec<u8>,
    data: Vec<u8>,
    text: Vec<u8>,
}

// Reads key, nonce, data and text.
fn read_given(heap: Global, words: &mut Words) -> Result<Given, Unread>
    ensures { Holds (λ g. (inputs_in g, left words.new)) result (inputs_of (left words.old)) }
{
    let key = read_bytes(heap, words.next_word()?)?;
    let nonce = read_bytes(heap, words.next_word()?)?;
    let data = read_bytes(heap, words.next_word()?)?;
    let text = read_bytes(heap, words.next_word()?)?;
    Ok(Given {
        key,
        nonce,
        data,
        text,
    })
}

// Why the cipher refuses, as a line.
#[derive(Clone, Copy)]
struct Refused(SealFault);

impl fmt::Display for Refused {
    ghost output = { λ r. Some (refused_text (fault_number r.0) (fault_layer r.0)) };

    fn fmt<W: fmt::Write>(&self, f: &mut fmt::Formatter<W>) -> fmt::Result {
        let number = self.0.number();
        let layer = self.0.layer();
        writeln!(f, "refused {number} layer {layer} record 0 place 0")
    }
}

// The first line of an answer: what was done, or the refusal.
#[derive(Clone, Copy)]
struct FirstLine {
    done: &'static str,
    answer: Result<(), SealFault>,
}

impl fmt::Display for FirstLine {
    ghost output = { λ l. Some (first_line l.done.now l.answer) };

    fn fmt<W: fmt::Write>(&self, f: &mut fmt::Formatter<W>) -> fmt::Result {
        match self.answer {
            Ok(()) => writeln!(f, "{}", self.done),
            Err(fault) => write!(f, "{}", Refused(fault)),
        }
    }
}

// What seal answered, and its buffers. It is printed in one line. Open has no tag to give back, so its run is another struct.
#[derive(Drop)]
struct SealRun {
    answer: Result<(), SealFault>,
    out: Vec<u8>,
    tag: Vec<u8>,
}

impl fmt::Display for SealRun {
    ghost output = { λ s. Some (seal_text (seal_in s)) };

    fn fmt<W: fmt::Write>(&self, f: &mut fmt::Formatter<W>) -> fmt::Result {
        let ciphertext = Hex(self.out.as_slice());
        let tag = Hex(self.tag.as_slice());
        match self.answer {
            Ok(()) => writeln!(f, "sealed {ciphertext} {tag}"),
            Err(fault) => write!(f, "{}", Refused(fault)),
        }
    }
}

// The same with both buffers whole.
#[derive(Clone, Copy)]
struct SealedInto<'a>(&'a SealRun);

impl fmt::Display for SealedInto<'_> {
    ghost output = { λ s. Some (seal_into_text (seal_in s.0.now)) };

    fn fmt<W: fmt::Write>(&self, f: &mut fmt::Formatter<W>) -> fmt::Result {
        let first = FirstLine {
            done: "sealed",
            answer: self.0.answer,
        };
        let out = Hex(self.0.out.as_slice());
        let tag = Hex(self.0.tag.as_slice());
        writeln!(f, "{first}output {out}\ntag {tag}")
    }
}

// What open answered, and its buffer. It is printed in one line.
#[derive(Drop)]
struct OpenRun {
    answer: Result<(), SealFault>,
    out: Vec<u8>,
}

impl fmt::Display for OpenRun {
    ghost output = { λ s. Some (open_text (open_in s)) };

    fn fmt<W: fmt::Write>(&self, f: &mut fmt::Formatter<W>) -> fmt::Result {
        let message = Hex(self.out.as_slice());
        match self.answer {
            Ok(()) => writeln!(f, "opened {message}"),
            Err(fault) => write!(f, "{}", Refused(fault)),
        }
    }
}

// The same with the buffer whole.
#[derive(Clone, Copy)]
struct OpenedInto<'a>(&'a OpenRun);

impl fmt::Display for OpenedInto<'_> {
    ghost output = { λ s. Some (open_into_text (open_in s.0.now)) };

    fn fmt<W: fmt::Write>(&self, f: &mut fmt::Formatter<W>) -> fmt::Result {
        let first = FirstLine {
            done: "opened",
            answer: self.0.answer,
        };
        let out = Hex(self.0.out.as_slice());
        writeln!(f, "{first}output {out}")
    }
}

// What test answered, and its scratch.
#[derive(Drop)]
struct TestRun {
    answer: Result<(), SealFault>,
    scratch: Vec<u8>,
}

impl fmt::Display for TestRun {
    ghost output = { λ s. Some (test_text (test_in s)) };

    #[tactic(auto, unfolding(crate::specs::Sealings::test_text))]
    fn fmt<W: fmt::Write>(&self, f: &mut fmt::Formatter<W>) -> fmt::Result {
        let first = FirstLine {
            done: "tested",
            answer: self.answer,
        };
        let word = scratch_word(self.scratch.as_slice());
        writeln!(f, "{first}scratch {word}")
    }
}

// Seals into buffers of these lengths.
fn run_seal<C: Sealer>(
    heap: Global,
    given: &Given,
    room: usize,
    width: usize,
) -> Result<SealRun, AllocError>
    ensures { IfOk result (λ s. seal_in s ≡ seal_with C.meaning (inputs_in given.now) room width) }
{
    let mut out = vec![in heap; FILLER; room]?;
    let mut tag = vec![in heap; FILLER; width]?;
    let answer = C::seal(
        given.key.as_slice(),
        given.nonce.as_slice(),
        given.data.as_slice(),
        given.text.as_slice(),
        out.as_mut_slice(),
        tag.as_mut_slice(),
    );
    Ok(SealRun { answer, out, tag })
}

// Opens into a buffer of this length.
fn run_open<C: Sealer>(
    heap: Global,
    given: &Given,
    tag: &[u8],
    room: usize,
) -> Result<OpenRun, AllocError>
    ensures { IfOk result (λ s. open_in s ≡ open_with C.meaning (inputs_in given.now) tag.now room) }
{
    let mut out = vec![in heap; FILLER; room]?;
    let answer = C::open(
        given.key.as_slice(),
        given.nonce.as_slice(),
        given.data.as_slice(),
        given.text.as_slice(),
        out.as_mut_slice(),
        tag,
    );
    Ok(OpenRun { answer, out })
}

// Tests with a scratch of this length.
fn run_test<C: Sealer>(
    heap: Global,
    given: &Given,
    tag: &[u8],
    room: usize,
) -> Result<TestRun, AllocError>
    ensures { IfOk result (λ s. test_in s ≡ test_with C.meaning (inputs_in given.now) tag.now room) }
{
    let mut scratch = vec![in heap; FILLER; room]?;
    let answer = C::test(
        given.key.as_slice(),
        given.nonce.as_slice(),
        given.data.as_slice(),
        given.text.as_slice(),
        scratch.as_mut_slice(),
        tag,
    );
    Ok(TestRun { answer, scratch })
}

// Seal has no more words.
fn call_seal<C: Sealer>(heap: Global, given: &Given, words: Words) -> Result<String, Unread>
    ensures { Holds string_bytes result (given_asked C.meaning Seal (inputs_in given.now) (left words.entry)) }
{
    words.finish()?;
    let sealed = run_seal::<C>(heap, given, given.text.len(), C::WIDTH)?;
    Ok(sealed.to_string(heap)?)
}

// Open's own words: TAG.
fn call_open<C: Sealer>(heap: Global, given: &Given, mut words: Words) -> Result<String, Unread>
    ensures { Holds string_bytes result (given_asked C.meaning Open (inputs_in given.now) (left words.entry)) }
{
    let tag = read_bytes(heap, words.next_word()?)?;
    words.finish()?;
    let opened = run_open::<C>(heap, given, tag.as_slice(), given.text.len())?;
    Ok(opened.to_string(heap)?)
}

// Those of seal-into: ROOM WIDTH.
fn call_seal_into<C: Sealer>(
    heap: Global,
    given: &Given,
    mut words: Words,
) -> Result<String, Unread>
    ensures { Holds string_bytes result (given_asked C.meaning SealInto (inputs_in given.now) (left words.entry)) }
{
    let room = read_number(words.next_word()?)?;
    let width = read_number(words.next_word()?)?;
    words.finish()?;
    let sealed = run_seal::<C>(heap, given, room as usize, width as usize)?;
    Ok(SealedInto(&sealed).to_string(heap)?)
}

// Those of open-into: TAG ROOM.
fn call_open_into<C: Sealer>(
    heap: Global,
    given: &Given,
    mut words: Words,
) -> Result<String, Unread>
    ensures { Holds string_bytes result (given_asked C.meaning OpenInto (inputs_in given.now) (left words.entry)) }
{
    let tag = read_bytes(heap, words.next_word()?)?;
    let room = read_number(words.next_word()?)?;
    words.finish()?;
    let opened = run_open::<C>(heap, given, tag.as_slice(), room as usize)?;
    Ok(OpenedInto(&opened).to_string(heap)?)
}

// Those of test: TAG ROOM.
fn call_test<C: Sealer>(heap: Global, given: &Given, mut words: Words) -> Result<String, Unread>
    ensures { Holds string_bytes result (given_asked C.meaning Test (inputs_in given.now) (left words.entry)) }
{
    let tag = read_bytes(heap, words.next_word()?)?;
    let room = read_number(words.next_word()?)?;
    words.finish()?;
    let tested = run_test::<C>(heap, given, tag.as_slice(), room as usize)?;
    Ok(tested.to_string(heap)?)
}

// Makes a call of a cipher, from the words after the version: KEY NONCE DATA TEXT, and then each call's own.
#[tactic(auto, unfolding(crate::specs::Sealings::cipher_asked))]
pub(crate) fn call_cipher<C: Sealer>(
    heap: Global,
    call: CipherCall,
    mut words: Words,
) -> Result<String, Unread>
    ensures { Holds string_bytes result (cipher_asked C.meaning call (left words.entry)) }
{
    let given = read_given(heap, &mut words)?;
    match call {
        CipherCall::Seal => call_seal::<C>(heap, &given, words),
        CipherCall::Open => call_open::<C>(heap, &given, words),
        CipherCall::SealInto => call_seal_into::<C>(heap, &given, words),
        CipherCall::OpenInto => call_open_into::<C>(heap, &given, words),
        CipherCall::Test => call_test::<C>(heap, &given, words),
    }
}
