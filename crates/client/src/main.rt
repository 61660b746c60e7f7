// A client: under each sealer it writes a card, checks it, finds a cell and reads its sheet.
#![tactic(auto)]

use anyhow::Context;
use cards::CardFault;
use other_sealer::FirstByte;
use reader::{Card, check, find, sheet};
use sealer::{SCRATCH_BYTES, Sealer};
use spoc_sealer::{BenchSealer, Spoc64Sealer, Spoc128Sealer};
use writer::Writer;

const KEY: [u8; 16] = [1; 16];

fn write<C: Sealer>(medium: &mut [u8]) -> anyhow::Result<usize> {
    let mut writer = Writer::<C>::start(&KEY, 4, medium).context("start")?;
    writer.append(medium, 7, 1, b"shoal").context("append")?;
    writer.append(medium, 7, 2, b"deep").context("append")?;
    let length = writer
        .close(medium)
        .map_err(CardFault::from)
        .context("close")?;
    Ok(length)
}

fn read<C: Sealer>(rt: &HostRuntime, name: &str, bytes: &[u8]) -> anyhow::Result<()> {
    let mut scratch = [0; SCRATCH_BYTES];
    let mut card = Card::empty();
    check::<C>(&KEY, bytes, &mut scratch, &mut card).context("check")?;
    let i = find(&card, 7).context("find")?;
    let mut buffer = [0; 16];
    let head = sheet::<C>(&card, i, &mut buffer).context("sheet")?;
    let edition = head.edition;
    let length = head.length;
    println!(rt; "{name}: cell 7 is sheet {i}, edition {edition}, {length} bytes")?;
    Ok(())
}

fn write_and_read<C: Sealer>(rt: &HostRuntime, name: &str) -> anyhow::Result<()> {
    let mut medium = [0; 256];
    let length = write::<C>(&mut medium)?;
    let bytes = medium.get(0..length).context("length")?;
    read::<C>(rt, name, bytes)
}

fn main(rt: HostRuntime) -> anyhow::Result<()> {
    write_and_read::<Spoc64Sealer>(&rt, "SpoC-64")?;
    write_and_read::<Spoc128Sealer>(&rt, "SpoC-128")?;
    write_and_read::<BenchSealer>(&rt, "bench")?;
    write_and_read::<FirstByte>(&rt, "another's")
}
