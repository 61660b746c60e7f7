// The workbench: reads a script from standard input, one call to a line, and prints what each line answers.
#![tactic(auto)]

mod calls;
mod cipher;
mod program;
mod session;
mod states;

use std::io::BufReader;

fn main(rt: HostRuntime) -> anyhow::Result<()> {
    program::run(
        rt.alloc(),
        BufReader::new(rt.alloc(), rt.stdin())?,
        &mut rt.stdout(),
    )?;
    Ok(())
}
