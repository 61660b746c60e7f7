ghost use Rattle.std.specs.Prelude.{string_bytes};
ghost use Rattle.script.specs.Reasons.{Holds};
ghost use Rattle.script.specs.Words.{left};
ghost use Rattle.workbench.specs.Printed.{permutation_asked, version_asked};
ghost use Rattle.workbench.specs.Sealings.{cipher_asked};
ghost use Rattle.sealers.specs.Names.{cipher_of};

use crate::cipher::call_cipher;
use crate::states::call_on;
use card_calls::read_sealer;
use permutations::{Bench, Light192, Light256};
use script::{CipherCall, PermutationCall, PermutationName, Unread, Words};
use sealers::SealerName;
use spoc_sealer::{BenchSealer, Spoc64Sealer, Spoc128Sealer};
use std::alloc::Global;

// Reads a permutation, and makes the call on a state of it.
pub(crate) fn call_permutation(
    heap: Global,
    call: PermutationCall,
    mut words: Words,
) -> Result<String, Unread>
    ensures { Holds string_bytes result (permutation_asked call (left words.entry)) }
{
    let of = PermutationName::try_from(words.next_word()?)?;
    match of {
        PermutationName::Light192 => call_on::<24, Light192>(heap, call, of, words),
        PermutationName::Light256 => call_on::<32, Light256>(heap, call, of, words),
        PermutationName::Bench => call_on::<32, Bench>(heap, call, of, words),
    }
}

// Makes a call of the cipher over the sealer of this name: the match is that of call_reader, over another generic function.
fn call_sealer(
    heap: Global,
    sealer: SealerName,
    call: CipherCall,
    words: Words,
) -> Result<String, Unread>
    ensures { Holds string_bytes result (cipher_asked (cipher_of sealer) call (left words.entry)) }
{
    match sealer {
        SealerName::Spoc64 => call_cipher::<Spoc64Sealer>(heap, call, words),
        SealerName::Spoc128 => call_cipher::<Spoc128Sealer>(heap, call, words),
        SealerName::Bench => call_cipher::<BenchSealer>(heap, call, words),
    }
}

// Reads a version, and makes the call over its sealer.
pub(crate) fn call_version(
    heap: Global,
    call: CipherCall,
    mut words: Words,
) -> Result<String, Unread>
    ensures { Holds string_bytes result (version_asked call (left words.entry)) }
{
    let sealer = read_sealer(words.next_word()?)?;
    call_sealer(heap, sealer, call, words)
}
