ghost use Rattle.std.specs.Prelude.{◌≡◌, Some};
ghost use Rattle.script.specs.Names.{call_named, permutation_named, name_text};

use crate::unread::Unread;
use std::fmt;

/// A call on a state of a permutation (docs/workbench.md).
#[derive(Clone, Copy, Debug, PartialEq, Eq)]
pub enum PermutationCall {
    /// `forward`: all steps.
    Forward,
    /// `back`: all steps undone.
    Back,
    /// `trace`: the state after each number of steps.
    Trace,
    /// `forward-by`: the first steps, as many as are given.
    ForwardBy,
    /// `back-by`: the first steps, as many as are given, undone.
    BackBy,
    /// `page`: the diffusion page of a state after a number of steps, with a buffer of the length given.
    Page,
}

/// A call of the cipher (docs/workbench.md).
#[derive(Clone, Copy, Debug, PartialEq, Eq)]
pub enum CipherCall {
    /// `seal`, with an output as long as the message and room for the tag.
    Seal,
    /// `open`, with an output as long as the ciphertext.
    Open,
    /// `seal-into`: `seal` with an output and a tag of the lengths given, which are shown.
    SealInto,
    /// `open-into`: `open` with an output of the length given, which is shown.
    OpenInto,
    /// `test`, with a scratch of the length given.
    Test,
}

/// A call of the reader (docs/workbench.md).
#[derive(Clone, Copy, Debug, PartialEq, Eq)]
pub enum ReaderCall {
    /// `check`.
    Check,
    /// `sheet`, after a check.
    Sheet,
    /// `find`, after a check.
    Find,
}

/// A line of a card that is being written (docs/workbench.md).
#[derive(Clone, Copy, Debug, PartialEq, Eq)]
pub enum WriterCall {
    /// `append`.
    Append,
    /// `close`.
    Close,
    /// `end`: the card is written, and its answers are printed.
    End,
}

/// What a line asks for, by its first word: a call, a card to be written, or a line of that card
/// (docs/workbench.md). Calls of one kind begin with the same words.
///
/// Any other word is refused as `Unread::UnknownCall`.
#[derive(Clone, Copy, Debug, PartialEq, Eq)]
pub enum CallName {
    /// A call on a state of a permutation.
    Permutation(PermutationCall),
    /// A call of the cipher.
    Cipher(CipherCall),
    /// A call of the reader of cards.
    Reader(ReaderCall),
    /// `write`: a card is to be written.
    Write,
    /// A line of a card that is being written.
    Writer(WriterCall),
}

impl TryFrom<&[u8]> for CallName {
    type Error = Unread;

    ghost try_from_gives = { λ word r. r ≡ call_named word.now };

    #[tactic(auto, using(crate::proofs::Naming::by_bytes))]
    fn try_from(word: &[u8]) -> Result<CallName, Unread> {
        match word {
            b"forward" => Ok(CallName::Permutation(PermutationCall::Forward)),
            b"back" => Ok(CallName::Permutation(PermutationCall::Back)),
            b"trace" => Ok(CallName::Permutation(PermutationCall::Trace)),
            b"forward-by" => Ok(CallName::Permutation(PermutationCall::ForwardBy)),
            b"back-by" => Ok(CallName::Permutation(PermutationCall::BackBy)),
            b"page" => Ok(CallName::Permutation(PermutationCall::Page)),
            b"seal" => Ok(CallName::Cipher(CipherCall::Seal)),
            b"open" => Ok(CallName::Cipher(CipherCall::Open)),
            b"seal-into" => Ok(CallName::Cipher(CipherCall::SealInto)),
            b"open-into" => Ok(CallName::Cipher(CipherCall::OpenInto)),
            b"test" => Ok(CallName::Cipher(CipherCall::Test)),
            b"check" => Ok(CallName::Reader(ReaderCall::Check)),
            b"sheet" => Ok(CallName::Reader(ReaderCall::Sheet)),
            b"find" => Ok(CallName::Reader(ReaderCall::Find)),
            b"write" => Ok(CallName::Write),
            b"append" => Ok(CallName::Writer(WriterCall::Append)),
            b"close" => Ok(CallName::Writer(WriterCall::Close)),
            b"end" => Ok(CallName::Writer(WriterCall::End)),
            _ => Err(Unread::UnknownCall),
        }
    }
}

/// Which permutation a call is about (docs/workbench.md); any other word is refused as
/// `Unread::UnknownPermutation`.
#[derive(Clone, Copy, Debug, PartialEq, Eq)]
pub enum PermutationName {
    /// `192`: sLiSCP-light-[192].
    Light192,
    /// `256`: sLiSCP-light-[256].
    Light256,
    /// `bench`: the bench permutation.
    Bench,
}

impl fmt::Display for PermutationName {
    ghost output = { λ n. Some (name_text n) };

    fn fmt<W: fmt::Write>(&self, f: &mut fmt::Formatter<W>) -> fmt::Result {
        f.write_str(match self {
            PermutationName::Light192 => "192",
            PermutationName::Light256 => "256",
            PermutationName::Bench => "bench",
        })
    }
}

impl TryFrom<&[u8]> for PermutationName {
    type Error = Unread;

    ghost try_from_gives = { λ word r. r ≡ permutation_named word.now };

    #[tactic(auto, using(crate::proofs::Naming::by_bytes))]
    fn try_from(word: &[u8]) -> Result<PermutationName, Unread> {
        match word {
            b"192" => Ok(PermutationName::Light192),
            b"256" => Ok(PermutationName::Light256),
            b"bench" => Ok(PermutationName::Bench),
            _ => Err(Unread::UnknownPermutation),
        }
    }
}
