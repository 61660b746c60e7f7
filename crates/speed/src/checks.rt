use crate::clock::least_time;
use anyhow::{Context, ensure};
use cards::{
    CardFault, HEAD_BYTES, HEADER_BYTES, MOST_BODY, MOST_SHEETS, record_data, record_nonce,
};
use reader::{Card, check};
use sealer::{SCRATCH_BYTES, Sealer};
use spoc_sealer::{BenchSealer, Spoc64Sealer, Spoc128Sealer};
use writer::Writer;

const KEY: [u8; 16] = [7; 16];

// Writes a card of as many sheets as there may be, each as long as it may be.
fn write_full<C: Sealer>(medium: &mut [u8]) -> anyhow::Result<()> {
    let body = [5; MOST_BODY];
    let mut writer = Writer::<C>::start(&KEY, 4, medium).context("start was refused")?;
    // Each sheet has its number as its cell.
    for cell in 0..MOST_SHEETS {
        writer
            .append(medium, cell as u32, 1, &body)
            .context("append was refused")?;
    }
    writer
        .close(medium)
        .map_err(CardFault::from)
        .context("close was refused")?;
    Ok(())
}

// Checks a full card.
fn check_card<C: Sealer>(bytes: &[u8], scratch: &mut [u8]) -> anyhow::Result<()> {
    let mut card = Card::empty();
    check::<C>(&KEY, bytes, scratch, &mut card).context("the card was refused")?;
    ensure!(card.count() == MOST_SHEETS, "the card was refused");
    Ok(())
}

// Opens a record whose body is as long as it may be.
fn open_record<C: Sealer>(
    header: &[u8; 13],
    n: usize,
    record: &[u8],
    out: &mut [u8],
) -> anyhow::Result<()> {
    let (head, rest) = record.split_first_chunk::<9>().context("a head cut")?;
    let (body, tag) = rest.split_at_checked(MOST_BODY).context("a body cut")?;
    let nonce = record_nonce(header, n as u64);
    let data = record_data(header, head);
    // As a card's fault, which prints: the cipher's own is no Error.
    C::open(&KEY, &nonce, &data, body, out, tag).map_err(CardFault::of_cipher)?;
    Ok(())
}

// Opens the bodies of a full card one after the other.
fn open_bodies<C: Sealer>(bytes: &[u8], out: &mut [u8]) -> anyhow::Result<()> {
    let (header, records) = bytes
        .split_first_chunk::<HEADER_BYTES>()
        .context("a header cut")?;
    let size = HEAD_BYTES + MOST_BODY + C::WIDTH;
    for (n, record) in records.chunks(size).take(MOST_SHEETS).enumerate() {
        open_record::<C>(header, n, record, out)?;
    }
    Ok(())
}

// Times check of a full card, and opening all its bodies.
fn time<C: Sealer>(rt: &HostRuntime, name: &str) -> anyhow::Result<()> {
    let width = C::WIDTH;
    let length = HEADER_BYTES + MOST_SHEETS * (HEAD_BYTES + MOST_BODY + width) + HEAD_BYTES + width;
    let mut medium = vec![in rt.alloc(); 0; length]?;
    write_full::<C>(medium.as_mut_slice())?;
    let bytes = medium.as_slice();
    let mut scratch = [0; SCRATCH_BYTES];
    let mut body = [0; MOST_BODY];
    let check = least_time(rt, 1, || check_card::<C>(bytes, &mut scratch))?.as_micros();
    let open = least_time(rt, 1, || {
        open_bodies::<C>(bytes, &mut body).context("the card was refused")
    })?
    .as_micros();
    let percent = check.saturating_mul(100) / open.max(1);
    println!(rt;
        "{name} card of {length} bytes: check {check} us, opening its bodies {open} us, {percent} %"
    )?;
    Ok(())
}

/// Times check of a full card of each suite beside opening its bodies, and prints a line for each
/// (docs/cards.md).
pub fn sealers(rt: &HostRuntime) -> anyhow::Result<()> {
    time::<Spoc64Sealer>(rt, "SpoC-64")?;
    time::<Spoc128Sealer>(rt, "SpoC-128")?;
    time::<BenchSealer>(rt, "bench")?;
    Ok(())
}
