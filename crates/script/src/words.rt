ghost use Rattle.std.specs.Prelude.{◌≡◌, ◌==◌, ◌∷◌, position};
ghost use Rattle.std.specs.Option.{option_map};
ghost use Rattle.script.specs.Words.{words, words_in, left, next_word, next_left, ending, Gives};

use crate::unread::Unread;

// The place of the first space.
fn first_space(line: &[u8]) -> Option<usize>
    ensures { result ≡ position (λ b. b == 32) line.now }
{
    line.iter().position(|b| *b == b' ')
}

// The first word of a line, and what follows the space after it. No split or splitn: those don't hand out
// what is left, which finish asks after, and a line that ends in a space has a last word that is empty.
#[tactic(auto, using(crate::proofs::Splitting::split_there, crate::proofs::Splitting::split_nowhere))]
fn split_word(line: &[u8]) -> (&[u8], Option<&[u8]>)
    ensures { words line.now ≡ result.0.now ∷ words_in (option_map (λ x. x.now) result.1) }
{
    match first_space(line) {
        Some(i) => (&line[..i], Some(&line[i + 1..])),
        None => (line, None),
    }
}

/// The words of a line that are not read yet: the line is split at each space (docs/workbench.md).
#[derive(Drop)]
pub struct Words<'a> {
    rest: Option<&'a [u8]>,
}

impl<'a> Words<'a> {
    /// All words of a line: one more than it has spaces, some of them perhaps empty.
    pub fn new(line: &'a [u8]) -> Words<'a>
        ensures { left result ≡ words line.now }
    {
        Words { rest: Some(line) }
    }

    /// Reads the next word, which is not empty.
    ///
    /// Where the line has ended it is refused as `TooFewWords`, and nothing changes; an empty word is refused
    /// as `EmptyWord`, and the words after it are left.
    pub fn next_word(&mut self) -> Result<&'a [u8], Unread>
        ensures answer { Gives result (next_word (left self.old)) }
        ensures left { left self.new ≡ next_left (left self.old) }
    {
        // No ok_or with `?`: the compiler then takes the slice apart, and a word takes half as long again.
        let Some(line) = self.rest else {
            return Err(Unread::TooFewWords);
        };
        let (word, rest) = split_word(line);
        self.rest = rest;
        if word.is_empty() {
            return Err(Unread::EmptyWord);
        }
        Ok(word)
    }

    /// Whether every word has been read: else the answer is `TooManyWords`. It reads none.
    #[tactic(auto, using(crate::proofs::Splitting::not_ending))]
    pub fn finish(&self) -> Result<(), Unread>
        ensures { result ≡ ending (left self.now) }
    {
        // None is the good answer, which no ok_or gives.
        match self.rest {
            None => Ok(()),
            Some(_) => Err(Unread::TooManyWords),
        }
    }
}
