ghost use Rattle.std.specs.Prelude.{◌≡◌, ℕ, ◌≤◌, List, ◌++◌, length, take, Some, Ok};
ghost use Rattle.std.specs.List.{AllByRecursion};
ghost use Rattle.cards.specs.Claims.{WellCall, IsRun, RunsHold};
ghost use Rattle.cards.specs.Plain.{Plain, start};
ghost use Rattle.cards.specs.Runs.{run};
ghost use Rattle.cards.specs.Runs as plain;
ghost use Rattle.writer.specs.Replay.{made_calls, made_answers, Ran, GivenBack};
ghost use Rattle.writer.specs.Stands.{Stands};

use crate::writer::{Unclosed, Writer};
use cards::CardFault;
use sealer::Sealer;

/// A call of a writer, its medium left out, as `replay` makes it (docs/cards.md).
#[derive(Clone, Copy)]
pub enum Call<'a> {
    /// `append` of a sheet: its cell, its edition and its body.
    Append {
        cell: u32,
        edition: u16,
        body: &'a [u8],
    },
    /// `close`.
    Close,
}

/// What a replay comes to (docs/cards.md).
#[derive(Drop)]
pub struct Replayed<C> {
    /// How many calls were made, each of which has its answer in its slot.
    pub made: usize,
    /// The card's length in bytes, after an accepted close; else none.
    pub closed: Option<usize>,
    /// The writer, as the calls left it, so that a run can go on; none after an accepted close.
    pub writer: Option<Writer<C>>,
}

// The loop of replay. The claims on runs follow from what it says, apart from the loop.
fn make_calls<C: Sealer>(
    writer: Writer<C>,
    medium: &mut [u8],
    calls: &[Call<'_>],
    answers: &mut [Result<usize, CardFault>],
) -> Replayed<C>
    ensures same { (w : Plain) → Stands writer medium.old w →
        Ran result.made answers.old answers.new medium.new
        (run C.meaning w (made_calls (length answers.old) calls.now)) }
    ensures back { (w : Plain) → Stands writer medium.old w →
        GivenBack result.writer medium.new
        (run C.meaning w (made_calls (length answers.old) calls.now)).left }
    ensures closed { (w : Plain) → Stands writer medium.old w →
        result.closed ≡ (run C.meaning w (made_calls (length answers.old) calls.now)).closed }
    ensures made { result.made ≤ length answers.old }
    ensures well { AllByRecursion WellCall
        (made_calls result.made (take (length answers.old) calls.now)) }
{
    let count = calls.len().min(answers.len());
    let mut open = writer;
    // Over zip(answers.iter_mut()) a proof knows nothing of what the loop wrote, so each slot is written by
    // its number.
    for (i, call) in calls[..count].iter().enumerate() {
        let answer = match *call {
            Call::Append {
                cell,
                edition,
                body,
            } => open.append(medium, cell, edition, body),
            Call::Close => match open.close(medium) {
                Ok(length) => {
                    answers[i] = Ok(length);
                    return Replayed {
                        made: i + 1,
                        closed: Some(length),
                        writer: None,
                    };
                }
                Err(unclosed) => {
                    let Unclosed { writer, fault } = unclosed;
                    open = writer;
                    Err(fault)
                }
            },
        };
        answers[i] = answer;
    }
    Replayed {
        made: count,
        closed: None,
        writer: Some(open),
    }
}

/// Makes the calls one after the other, each on the medium that the call before left, and puts what each
/// answers into its slot.
///
/// An accepted close comes last. No more calls are made than there are slots, and the slots after the calls
/// that were made stay. Answers and medium are those of the plain writer's run, and the writer that is given
/// back stands for the plain one that is left (docs/cards.md). The calls made on a writer since it was
/// started, those before this call and those of it, never seal twice under one nonce, and a closed card reads
/// as the accepted sheets, in order.
pub fn replay<C: Sealer>(
    writer: Writer<C>,
    medium: &mut [u8],
    calls: &[Call<'_>],
    answers: &mut [Result<usize, CardFault>],
) -> Replayed<C>
    ensures same { (w : Plain) → Stands writer medium.old w →
        Ran result.made answers.old answers.new medium.new
        (run C.meaning w (made_calls (length answers.old) calls.now)) }
    ensures back { (w : Plain) → Stands writer medium.old w →
        GivenBack result.writer medium.new
        (run C.meaning w (made_calls (length answers.old) calls.now)).left }
    ensures closed { (w : Plain) → Stands writer medium.old w →
        result.closed ≡ (run C.meaning w (made_calls (length answers.old) calls.now)).closed }
    ensures made { result.made ≤ length answers.old }
    ensures started { (key : List ℕ) (number : ℕ) (before : List ℕ)
        (begun w : Plain) (earlier : List plain.Call) →
        start C.meaning key number before ≡ Ok begun → AllByRecursion WellCall earlier →
        (run C.meaning begun earlier).left ≡ Some w → Stands writer medium.old w →
        IsRun C.meaning key begun (earlier ++ made_calls result.made calls.now)
        ((run C.meaning begun earlier).answers ++ made_answers result.made answers.new)
        medium.new result.closed }
    ensures law { RunsHold C.meaning }
{
    make_calls(writer, medium, calls, answers)
}
