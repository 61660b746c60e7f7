ghost use Rattle.sealers.specs.Names.{Names};

use sealer::Sealer;
use spoc_sealer::{BenchSealer, Spoc64Sealer, Spoc128Sealer};

/// The sealers that the listing and the workbench know (docs/sealers.md).
#[derive(Clone, Copy, Debug, PartialEq, Eq)]
pub enum SealerName {
    /// SpoC-64, `Spoc64Sealer`.
    Spoc64,
    /// SpoC-128, `Spoc128Sealer`.
    Spoc128,
    /// SpoC over the bench suite, `BenchSealer`, which keeps no secret.
    Bench,
}

/// No sealer that is known here has that version (docs/sealers.md).
#[derive(Clone, Copy, Debug, PartialEq, Eq)]
pub struct NoSuchVersion;

/// The sealer that has a version.
impl TryFrom<u16> for SealerName {
    type Error = NoSuchVersion;

    ghost try_from_gives = { Names };

    fn try_from(version: u16) -> Result<Self, NoSuchVersion> {
        // No match: a trait's constant is no pattern.
        if version == Spoc64Sealer::VERSION {
            Ok(SealerName::Spoc64)
        } else if version == Spoc128Sealer::VERSION {
            Ok(SealerName::Spoc128)
        } else if version == BenchSealer::VERSION {
            Ok(SealerName::Bench)
        } else {
            Err(NoSuchVersion)
        }
    }
}
