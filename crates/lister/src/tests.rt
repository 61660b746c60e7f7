use crate::listing::{MOST_INPUT, run};
use cards::CardFault;
use sealer::Sealer;
use spoc_sealer::{BenchSealer, Spoc64Sealer, Spoc128Sealer};
use std::alloc::Global;
use std::process::Abort;
use std::test::Fail;
use writer::Writer;

const KEY: &[u8; 16] = b"\x01\x01\x01\x01\x01\x01\x01\x01\x02\x02\x02\x02\x02\x02\x02\x02";

// A bench card with no sheets.
const CARD: &[u8; 30] =
    b"SEA\x00\x09\x04\x04\x04\x04\x04\x04\x04\x04\x02\x00\x00\x00\x00\x00\x00\x00\x00\x51\x47\x43\x02\x0b\x00\x82\x02";

// The key, and then the bytes.
fn input_of(heap: Global, bytes: &[u8]) -> Result<Vec<u8>, Fail> {
    let mut input = Vec::from_slice(heap, KEY)?;
    input.extend_from_slice(bytes)?;
    Ok(input)
}

// What the program writes of an input.
fn listed(heap: Global, input: &[u8]) -> Result<Vec<u8>, Fail> {
    let mut source = input;
    let mut out = Vec::new(heap);
    run(&mut source, &mut out)?;
    Ok(out)
}

fn expect(rt: &impl Abort, heap: Global, bytes: &[u8], text: &str) -> Result<(), Fail> {
    let input = input_of(heap, bytes)?;
    assert_eq!(rt; listed(heap, input.as_slice())?.as_slice(), text.as_bytes());
    Ok(())
}

// The card with another byte at a place.
fn changed(place: usize, byte: u8) -> [u8; 30] {
    let mut card = *CARD;
    if place < card.len() {
        card[place] = byte;
    }
    card
}

// Each input of bytes under the key, and its text.
fn expect_each(rt: &impl Abort, heap: Global, rows: &[(&[u8], &str)]) -> Result<(), Fail> {
    for (bytes, text) in rows {
        expect(rt, heap, bytes, text)?;
    }
    Ok(())
}

#[test]
fn lengths_of_the_input(rt: HostRuntime) -> Result<(), Fail> {
    let heap = rt.alloc();
    let key: &[u8] = KEY;
    let most = vec![in heap; 0; MOST_INPUT]?;
    let more = vec![in heap; 0; MOST_INPUT + 1]?;
    let rows: [(&[u8], &str); 4] = [
        (&[], "refused 1 layer 1 record 0 place 0\n"),
        (&key[0..15], "refused 1 layer 1 record 0 place 0\n"),
        (more.as_slice(), "refused 3 layer 1 record 0 place 0\n"),
        (most.as_slice(), "refused 11 layer 3 record 0 place 0\n"),
    ];
    for (input, text) in rows {
        assert_eq!(rt; listed(heap, input)?.as_slice(), text.as_bytes());
    }
    Ok(())
}

#[test]
fn headers(rt: HostRuntime) -> Result<(), Fail> {
    let card: &[u8] = CARD;
    let rows: [(&[u8], &str); 5] = [
        (&[], "refused 10 layer 3 record 0 place 0\n"),
        (&card[0..12], "refused 10 layer 3 record 0 place 0\n"),
        (&changed(2, 0x42), "refused 11 layer 3 record 0 place 0\n"),
        (&changed(4, 5), "refused 12 layer 3 record 0 place 3\n"),
        (&changed(3, 1), "refused 12 layer 3 record 0 place 3\n"),
    ];
    expect_each(&rt, rt.alloc(), &rows)
}

#[test]
fn records(rt: HostRuntime) -> Result<(), Fail> {
    let card: &[u8] = CARD;
    let mut over = [0; 31];
    over[0..30].copy_from_slice(card);
    let mut long = changed(13, 1);
    long[20] = 0x10;
    long[21] = 1;
    let rows: [(&[u8], &str); 8] = [
        (card, "card 289360691352306692 version 9 sheets 0\n"),
        (&card[0..21], "refused 10 layer 2 record 0 place 13\n"),
        (&changed(13, 3), "refused 13 layer 2 record 0 place 13\n"),
        (&long, "refused 7 layer 2 record 0 place 20\n"),
        (&changed(17, 1), "refused 14 layer 2 record 0 place 14\n"),
        (&card[0..29], "refused 10 layer 2 record 0 place 22\n"),
        (&changed(29, 3), "refused 6 layer 1 record 0 place 22\n"),
        (&over, "refused 15 layer 3 record 0 place 30\n"),
    ];
    expect_each(&rt, rt.alloc(), &rows)
}

// A card of these sheets, and how long it is: cell, edition and body of each.
fn write_card<C: Sealer>(
    medium: &mut [u8],
    sheets: &[(u32, u16, &[u8])],
) -> Result<usize, CardFault> {
    let mut writer = Writer::<C>::start(KEY, 7, medium)?;
    for (cell, edition, body) in sheets {
        writer.append(medium, *cell, *edition, body)?;
    }
    Ok(writer.close(medium)?)
}

// A card of two sheets is listed so.
fn expect_two<C: Sealer>(
    rt: &impl Abort,
    heap: Global,
    medium: &mut [u8; 100],
    text: &str,
) -> Result<(), Fail> {
    let sheets: [(u32, u16, &[u8]); 2] = [(3, 1, b"abc"), (u32::MAX, u16::MAX, &[])];
    let length = write_card::<C>(medium, &sheets)?;
    assert!(rt; length <= 100);
    expect(rt, heap, &medium[0..length], text)
}

#[test]
fn two_sheets(rt: HostRuntime) -> Result<(), Fail> {
    let heap = rt.alloc();
    let mut medium = [0; 100];
    expect_two::<Spoc64Sealer>(
        &rt,
        heap,
        &mut medium,
        "card 7 version 1 sheets 2\nsheet 0 cell 3 edition 1 length 3\nsheet 1 cell 4294967295 edition 65535 length 0\n",
    )?;
    expect_two::<Spoc128Sealer>(
        &rt,
        heap,
        &mut medium,
        "card 7 version 2 sheets 2\nsheet 0 cell 3 edition 1 length 3\nsheet 1 cell 4294967295 edition 65535 length 0\n",
    )?;
    expect_two::<BenchSealer>(
        &rt,
        heap,
        &mut medium,
        "card 7 version 9 sheets 2\nsheet 0 cell 3 edition 1 length 3\nsheet 1 cell 4294967295 edition 65535 length 0\n",
    )
}

#[test]
fn one_sheet_too_many(rt: HostRuntime) -> Result<(), Fail> {
    let heap = rt.alloc();
    let mut medium = [0; 8734];
    let empty: (u32, u16, &[u8]) = (0, 0, &[]);
    assert_eq!(rt;
        write_card::<BenchSealer>(&mut medium, &[empty; 512])?,
        8734
    );
    let lines = listed(heap, input_of(heap, &medium)?.as_slice())?;
    assert!(rt;
        lines.as_slice().starts_with(
            b"card 7 version 9 sheets 512\nsheet 0 cell 0 edition 0 length 0\n",
        )
    );
    medium[8717] = 1;
    expect(
        &rt,
        heap,
        &medium,
        "refused 8 layer 2 record 512 place 8717\n",
    )?;
    medium[8717] = 3;
    expect(
        &rt,
        heap,
        &medium,
        "refused 13 layer 2 record 512 place 8717\n",
    )
}

#[test]
fn writer_that_is_full(rt: HostRuntime) -> Result<(), Fail> {
    let input = input_of(rt.alloc(), CARD)?;
    let mut source = input.as_slice();
    let mut room = [0; 10];
    assert!(rt; run(&mut source, &mut &mut room[..]).is_err());
    assert_eq!(rt; &room[..], b"card 28936".as_slice());
    Ok(())
}
