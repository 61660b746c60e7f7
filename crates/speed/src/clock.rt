use std::time::{Duration, Instant};

// How often each thing is timed; the least time counts.
const RUNS: u32 = 9;

// The least time of some runs, each of so many calls. A call that fails ends the benchmark.
pub(crate) fn least_time<F: FnMut() -> anyhow::Result<()>>(
    rt: &HostRuntime,
    calls: u32,
    mut call: F,
) -> anyhow::Result<Duration>
    requires { F.IsAlwaysCallable call }
{
    let mut least = Duration::MAX;
    for _ in 0..RUNS {
        let start = Instant::now(rt)?;
        for _ in 0..calls {
            call()?;
        }
        least = least.min(start.elapsed(rt)?);
    }
    Ok(least)
}

// Nanoseconds for each of so many calls.
pub(crate) fn each(span: Duration, calls: u32) -> u128 {
    span.as_nanos() / u128::from(calls).max(1)
}
