// Times the permutations, the cipher and check. It prints figures only when an argument asks for them:
// `speed permutations`, `speed cipher`, `speed cards`.
#![tactic(auto)]

mod checks;
mod cipher;
mod clock;
mod walks;

use std::env;

fn main(rt: HostRuntime) -> anyhow::Result<()> {
    for word in env::args(&rt)? {
        match word.as_str() {
            "permutations" => walks::permutations(&rt)?,
            "cipher" => cipher::suites(&rt)?,
            "cards" => checks::sealers(&rt)?,
            _ => {}
        }
    }
    Ok(())
}
