use crate::clock::{each, least_time};
use crate::walks;
use anyhow::Context;
use cards::CardFault;
use permutations::Bench;
use spoc::{Spoc64, Spoc128, Suite, open, seal};

const LENGTHS: [usize; 5] = [16, 64, 1024, 4096, 65535];

// About how many bytes are sealed at once.
const BYTES: usize = 2_000_000;

const KEY: [u8; 16] = [7; 16];

const NONCE: [u8; 16] = [9; 16];

// Times messages of one length, and says which part of seal's time its forwards take.
fn time_length<const B: usize, S: Suite<B>>(
    rt: &HostRuntime,
    name: &str,
    length: usize,
    forward: u128,
) -> anyhow::Result<()> {
    let heap = rt.alloc();
    let mut message = vec![in heap; 5; length]?;
    let mut ciphertext = vec![in heap; 0; length]?;
    let message = message.as_mut_slice();
    let ciphertext = ciphertext.as_mut_slice();
    let mut room = [0; 16];
    let tag = room.get_mut(0..S::RATE).context("a rate above 16")?;
    let calls = (BYTES / length.max(1)).min(100_000) as u32;
    // A refusal goes as a card's fault, which prints: the cipher's own is no Error.
    let sealing = least_time(rt, calls, || {
        seal::<B, S>(&KEY, &NONCE, &[], message, ciphertext, tag)
            .map_err(CardFault::of_cipher)
            .context("the cipher refused")
    })?;
    let opening = least_time(rt, calls, || {
        open::<B, S>(&KEY, &NONCE, &[], ciphertext, message, tag)
            .map_err(CardFault::of_cipher)
            .context("the cipher refused")
    })?;
    let sealing = each(sealing, calls);
    let opening = each(opening, calls);
    let bytes = length as u128;
    let seals = bytes * 1000 / sealing.max(1);
    let opens = bytes * 1000 / opening.max(1);
    let forwards = bytes / (S::RATE as u128).max(1) + 1;
    let share = forwards.saturating_mul(forward).saturating_mul(100) / sealing.max(1);
    println!(rt;
        "{name} {length} bytes: seal {seals} MB/s, open {opens} MB/s, forward {share} % of seal"
    )?;
    Ok(())
}

fn time<const B: usize, S: Suite<B>>(
    rt: &HostRuntime,
    name: &str,
    state: &mut [u8; B],
) -> anyhow::Result<()> {
    let forward = walks::time::<B, S>(rt, state)?.forward;
    for length in LENGTHS {
        time_length::<B, S>(rt, name, length, forward)?;
    }
    Ok(())
}

/// Times seal and open under each suite, and prints a line for each length of message (docs/cipher.md).
pub fn suites(rt: &HostRuntime) -> anyhow::Result<()> {
    time::<24, Spoc64>(rt, "SpoC-64", &mut [0; 24])?;
    time::<32, Spoc128>(rt, "SpoC-128", &mut [0; 32])?;
    time::<32, Bench>(rt, "bench", &mut [0; 32])?;
    Ok(())
}
