use crate::clock::{each, least_time};
use anyhow::ensure;
use permutations::{Light192, Light256, Permutation};

// How many calls are timed at once.
const CALLS: u32 = 100_000;

/// The least times of a call, in nanoseconds.
#[derive(Clone, Copy)]
pub struct Times {
    /// Of forward, all steps.
    pub forward: u128,
    /// Of back, all steps.
    pub back: u128,
}

/// Times forward and then back, after which the state is as it was: else that is an error.
pub fn time<const B: usize, P: Permutation<B>>(
    rt: &HostRuntime,
    state: &mut [u8; B],
) -> anyhow::Result<Times> {
    let begun = *state;
    let forward = least_time(rt, CALLS, || {
        P::forward(state);
        Ok(())
    })?;
    let back = least_time(rt, CALLS, || {
        P::back(state);
        Ok(())
    })?;
    ensure!(*state == begun, "back did not undo forward");
    Ok(Times {
        forward: each(forward, CALLS),
        back: each(back, CALLS),
    })
}

/// Times both sLiSCP-light permutations, and prints a line for each.
pub fn permutations(rt: &HostRuntime) -> anyhow::Result<()> {
    let Times { forward, back } = time::<24, Light192>(rt, &mut [0; 24])?;
    println!(rt; "192: forward {forward} ns, back {back} ns")?;
    let Times { forward, back } = time::<32, Light256>(rt, &mut [0; 32])?;
    println!(rt; "256: forward {forward} ns, back {back} ns")?;
    Ok(())
}
