// Lists a card that is read from standard input: 16 bytes of key, and then the card.
#![tactic(auto)]

mod listing;
#[cfg(test)]
mod tests;

fn main(rt: HostRuntime) -> anyhow::Result<()> {
    listing::run(&mut rt.stdin(), &mut rt.stdout())?;
    Ok(())
}
