ghost use Rattle.std.specs.Prelude.{◌≡◌, Some};
ghost use Rattle.permutations.specs.Fault.{refused_text, page_number};
ghost use Rattle.permutations.specs.declared.fault.PageFault.TheVariants.{TooManySteps as TooManyForPage};

use std::fmt;

// The permutations are of the first layer.
const LAYER: u8 = 1;

/// Why forward or back by a number of steps refuses: the permutation has not so many (docs/permutations.md).
#[derive(Clone, Copy, Debug, PartialEq, Eq)]
pub struct TooManySteps;

impl TooManySteps {
    /// The number of the question that got a no: always 21.
    pub fn number(&self) -> u8
        ensures { result ≡ 21 }
    {
        21
    }

    /// The layer that refuses: always 1, that of permutations and cipher.
    pub fn layer(&self) -> u8
        ensures { result ≡ 1 }
    {
        LAYER
    }
}

/// `refused 21 layer 1 record 0 place 0`
impl fmt::Display for TooManySteps {
    ghost output = { λ _. Some (refused_text 21 1) };

    fn fmt<W: fmt::Write>(&self, f: &mut fmt::Formatter<W>) -> fmt::Result {
        write!(f, "{}", PageFault::TooManySteps)
    }
}

/// Why a page is not written: each question with its number, in the order in which they are asked
/// (docs/permutations.md).
#[derive(Clone, Copy, Debug, PartialEq, Eq)]
pub enum PageFault {
    /// The permutation has not so many steps.
    TooManySteps = 21,
    /// The buffer is shorter than the page.
    BufferShort = 4,
}

impl PageFault {
    /// The number of the question that got a no: 21 or 4.
    pub fn number(&self) -> u8
        ensures { result ≡ page_number self.now }
    {
        *self as u8
    }

    /// The layer that refuses: always 1, that of permutations and cipher.
    pub fn layer(&self) -> u8
        ensures { result ≡ 1 }
    {
        LAYER
    }
}

impl From<TooManySteps> for PageFault {
    ghost from_gives = { λ _ r. r ≡ TooManyForPage };

    fn from(_: TooManySteps) -> PageFault {
        PageFault::TooManySteps
    }
}

/// `refused N layer 1 record 0 place 0`
impl fmt::Display for PageFault {
    ghost output = { λ e. Some (refused_text (page_number e) 1) };

    fn fmt<W: fmt::Write>(&self, f: &mut fmt::Formatter<W>) -> fmt::Result {
        write!(
            f,
            "refused {} layer {} record 0 place 0",
            self.number(),
            self.layer()
        )
    }
}
