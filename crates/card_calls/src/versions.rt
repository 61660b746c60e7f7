ghost use Rattle.std.specs.Prelude.{◌≡◌};
ghost use Rattle.card_calls.specs.Versions.{sealer_named};

use script::{Unread, read_number};
use sealers::SealerName;

/// Reads a version, which stands for its sealer (docs/workbench.md): a number of at most 64 bits, of which
/// most are no sealer's, and are refused as `UnknownVersion`.
pub fn read_sealer(word: &[u8]) -> Result<SealerName, Unread>
    ensures { result ≡ sealer_named word.now }
{
    let version = read_number(word)?;
    let version = u16::try_from(version).map_err(|_| Unread::UnknownVersion)?;
    SealerName::try_from(version).map_err(|_| Unread::UnknownVersion)
}
