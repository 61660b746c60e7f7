use crate::ring::Ring;
use cards::CardFault;
use permutations::{Permutation, TooManySteps, there_and_back};
use reader::{Card, SheetHead, find, sheet};
use sealer::{SealFault, Sealer};
use spoc_sealer::{BenchSealer, Spoc};
use std::process::Abort;
use std::test::Fail;
use writer::{Call, Writer, replay};

// The ring suite as a sealer of cards.
type RingSealer = Spoc<23, Ring>;

// What is sealed and written here, byte by byte, was made by the second implementation; reference/self_check.py makes it again.
const KEY: &[u8; 16] = b"\x01\x01\x01\x01\x01\x01\x01\x01\x02\x02\x02\x02\x02\x02\x02\x02";

const NONCE: &[u8; 16] = b"\x04\x04\x04\x04\x04\x04\x04\x04\x08\x08\x08\x08\x08\x08\x08\x08";

const CIPHERTEXT: [u8; 12] = [
    0x7E, 0x6D, 0x6A, 0x64, 0x66, 0x22, 0x1C, 0x15, 0x47, 0x56, 0x28, 0x65,
];

const TAG: [u8; 5] = [0xFC, 0x44, 0xBF, 0x48, 0x63];

const NUMBER: u64 = 0x0404_0404_0404_0404;

// A card of three sheets.
const CARD: &[u8; 80] =
    b"SEA\x03\x09\x04\x04\x04\x04\x04\x04\x04\x04\x01\x00\x00\x00\x07\x00\x01\x00\x05\x76\x6d\x3a\x25\x0b\x27\x2f\x59\x61\x67\x01\x00\x00\x00\x07\x00\x02\x00\x06\x60\x60\x30\x34\x03\x34\x44\xa1\x45\x72\x6c\x01\x00\x00\x00\x09\x00\x01\x00\x00\x31\x47\x7f\x0e\x5e\x02\x00\x00\x00\x03\x00\x00\x00\x00\x30\x47\x74\x0c\x5f";

#[test]
fn forward_is_as_worked_by_hand(rt: HostRuntime) {
    let start =
        *b"\x01\x02\x03\x04\x05\x06\x07\x08\x09\x0a\x0b\x0c\x0d\x0e\x0f\x10\x11\x12\x13\x14\x15\x16\x17";
    let turned =
        *b"\x0d\x0e\x0f\x10\x11\x12\x13\x14\x15\x16\x17\x01\x02\x03\x04\x05\x06\x07\x08\x09\x0a\x0b\x0c";
    let mixed =
        *b"\x0c\x0c\x0c\x14\x14\x14\x14\x1c\x1c\x1c\x1c\x01\x02\x03\x04\x05\x06\x07\x08\x09\x0a\x0b\x0c";
    let mut state = start;
    let answers = [Ok(start), Ok(turned), Ok(mixed), Err(TooManySteps)];
    for (s, there) in answers.iter().enumerate() {
        assert_eq!(rt; there_and_back::<23, Ring>(&mut state, s), *there);
        assert_eq!(rt; state, start);
    }
    Ring::forward(&mut state);
    assert_eq!(rt; state, mixed);
    Ring::back(&mut state);
    assert_eq!(rt; state, start);
}

#[test]
fn messages_are_sealed_and_open(rt: HostRuntime) {
    let rows: [(&[u8], &[u8], &[u8], [u8; 5]); 5] = [
        (b"", b"", b"", *b"\x07\x0a\x88\x0a\x08"),
        (b"\x10\x10\x10\x10\x10", b"", b"", *b"\x15\x15\xba\x17\x15"),
        (b"", b"\x10", b"\x12", *b"\x15\x85\xda\x07\x05"),
        (
            b"chart",
            b"shoal",
            b"\x7b\x62\x67\x6b\x64",
            *b"\x1d\x0f\xec\x1c\x15",
        ),
        (b"chart 7", b"shoal at 5 m", &CIPHERTEXT, TAG),
    ];
    for (data, message, ciphertext, tag) in &rows {
        let mut sealed = [7; 16];
        let mut made = [0; 5];
        assert_eq!(rt;
            spoc::seal::<23, Ring>(KEY, NONCE, data, message, &mut sealed, &mut made),
            Ok(())
        );
        assert_eq!(rt; sealed.get(..ciphertext.len()), Some(*ciphertext));
        assert_eq!(rt;
            sealed.get(ciphertext.len()..),
            [7; 16].get(ciphertext.len()..)
        );
        assert_eq!(rt; made, *tag);
        let mut opened = [7; 16];
        assert_eq!(rt;
            spoc::open::<23, Ring>(KEY, NONCE, data, ciphertext, &mut opened, tag),
            Ok(())
        );
        assert_eq!(rt; opened.get(..message.len()), Some(*message));
        assert_eq!(rt; opened.get(message.len()..), [7; 16].get(message.len()..));
        let mut sealed = [9; 16];
        let mut made = [0; 5];
        let mut opened = [9; 16];
        assert_eq!(rt;
            spoc::seal_and_open::<23, Ring>(
                KEY,
                NONCE,
                data,
                message,
                &mut sealed,
                &mut opened,
                &mut made
            ),
            Ok(())
        );
        assert_eq!(rt; sealed.get(..ciphertext.len()), Some(*ciphertext));
        assert_eq!(rt; made, *tag);
        assert_eq!(rt; opened.get(..message.len()), Some(*message));
    }
}

// What opening under the data answers, and what it leaves of sevens.
fn opened(data: &[u8], ciphertext: &[u8; 12], tag: &[u8]) -> (Result<(), SealFault>, [u8; 14]) {
    let mut out = [7; 14];
    let answer = spoc::open::<23, Ring>(KEY, NONCE, data, ciphertext, &mut out, tag);
    (answer, out)
}

#[test]
fn a_changed_byte_does_not_open(rt: HostRuntime) {
    let refused = (
        Err(SealFault::TagMismatch),
        *b"\0\0\0\0\0\0\0\0\0\0\0\0\x07\x07",
    );
    assert_eq!(rt;
        opened(b"chart 7", &CIPHERTEXT, &TAG),
        (Ok(()), *b"shoal at 5 m\x07\x07")
    );
    assert_eq!(rt; opened(b"chart 8", &CIPHERTEXT, &TAG), refused);
    for (i, byte) in CIPHERTEXT.iter().enumerate() {
        let mut changed = CIPHERTEXT;
        changed[i] = *byte ^ 1;
        assert_eq!(rt; opened(b"chart 7", &changed, &TAG), refused);
    }
    for (i, byte) in TAG.iter().enumerate() {
        let mut changed = TAG;
        changed[i] = *byte ^ 1;
        assert_eq!(rt; opened(b"chart 7", &CIPHERTEXT, &changed), refused);
    }
}

#[test]
fn a_tag_has_five_bytes(rt: HostRuntime) {
    let tags: [&[u8]; 3] = [b"", b"\xfc\x44\xbf\x48", b"\xfc\x44\xbf\x48\x63\x00"];
    for tag in &tags {
        assert_eq!(rt;
            opened(b"chart 7", &CIPHERTEXT, tag),
            (Err(SealFault::TagLength), [7; 14])
        );
    }
}

// The sheets of the card: cell, edition and body.
fn sheets() -> [(u32, u16, &'static [u8]); 3] {
    [(7, 1, b"shoal"), (7, 2, b"deeper"), (9, 1, b"")]
}

// Writes the card, and answers its length.
fn write(rt: &impl Abort, medium: &mut [u8]) -> Result<usize, CardFault> {
    let mut writer = Writer::<RingSealer>::start(KEY, NUMBER, medium)?;
    for (i, (cell, edition, body)) in sheets().iter().enumerate() {
        assert_eq!(rt; writer.append(medium, *cell, *edition, body), Ok(i));
    }
    Ok(writer.close(medium)?)
}

#[test]
fn a_card_is_written(rt: HostRuntime) {
    let mut medium = [7; 82];
    assert_eq!(rt; write(&rt, &mut medium), Ok(80));
    assert_eq!(rt; medium.first_chunk(), Some(CARD));
    assert_eq!(rt; medium.last_chunk(), Some(&[7; 2]));
}

#[test]
fn appended_sheets_read_back(rt: HostRuntime) -> Result<(), Fail> {
    let mut medium = [7; 80];
    write(&rt, &mut medium)?;
    let mut card = Card::empty();
    reader::check::<RingSealer>(KEY, &medium, &mut [7; 16], &mut card)?;
    assert_eq!(rt; card.count(), 3);
    for (i, (cell, edition, body)) in sheets().iter().enumerate() {
        let mut buffer = [7; 16];
        let head = sheet::<RingSealer>(&card, i, &mut buffer)?;
        assert_eq!(rt;
            head,
            SheetHead {
                cell: *cell,
                edition: *edition,
                length: body.len(),
            }
        );
        assert_eq!(rt; buffer.get(..body.len()), Some(*body));
        assert_eq!(rt; buffer.get(body.len()..), [7; 16].get(body.len()..));
    }
    assert_eq!(rt; find(&card, 7), Some(1));
    assert_eq!(rt; find(&card, 9), Some(2));
    assert_eq!(rt; find(&card, 8), None);
    Ok(())
}

// A fault as number, layer, record and place.
type Fault = (u8, u8, usize, usize);

fn said(answer: Result<usize, CardFault>) -> Result<usize, Fault> {
    answer.map_err(|fault| (fault.number(), fault.layer(), fault.record(), fault.place()))
}

fn append((cell, edition, body): (u32, u16, &[u8])) -> Call<'_> {
    Call::Append {
        cell,
        edition,
        body,
    }
}

#[test]
fn calls_are_replayed(rt: HostRuntime) -> Result<(), Fail> {
    let mut medium = [7; 80];
    let [first, second, third] = sheets();
    let calls = [
        append(first),
        append((8, 1, &[0; 4097])),
        append(second),
        append(third),
        Call::Close,
    ];
    let mut answers = [Ok(0); 5];
    let writer = Writer::<RingSealer>::start(KEY, NUMBER, &mut medium)?;
    assert_eq!(rt; replay(writer, &mut medium, &calls, &mut answers).made, 5);
    assert_eq!(rt;
        answers.map(said),
        [Ok(0), Err((7, 2, 1, 32)), Ok(1), Ok(2), Ok(80)]
    );
    assert_eq!(rt; medium, *CARD);
    let mut few = [Ok(0); 2];
    let writer = Writer::<RingSealer>::start(KEY, NUMBER, &mut medium)?;
    assert_eq!(rt; replay(writer, &mut medium, &calls, &mut few).made, 2);
    assert_eq!(rt; few.map(said), [Ok(0), Err((7, 2, 1, 32))]);
    Ok(())
}

// How many sheets check finds under a suite.
fn check_of<C: Sealer>(key: &[u8], bytes: &[u8]) -> Result<usize, Fault> {
    let mut card = Card::empty();
    let answer = reader::check::<C>(key, bytes, &mut [7; 16], &mut card);
    said(answer.map(|()| card.count()))
}

// The fault of check where a byte of the card is another.
fn fault_at(place: usize) -> Fault {
    match place {
        0..3 => (11, 3, 0, 0),
        3..5 => (12, 3, 0, 3),
        13 => (13, 2, 0, 13),
        20 => (10, 2, 0, 22),
        21 => (6, 1, 0, 26),
        5..32 => (6, 1, 0, 27),
        32 => (13, 2, 1, 32),
        39 => (10, 2, 1, 41),
        40 => (6, 1, 1, 48),
        33..52 => (6, 1, 1, 47),
        52 => (13, 2, 2, 52),
        59 => (10, 2, 2, 61),
        60 => (6, 1, 2, 62),
        53..66 => (6, 1, 2, 61),
        66 => (13, 2, 3, 66),
        67..75 => (14, 2, 3, 67),
        _ => (6, 1, 3, 75),
    }
}

#[test]
fn a_changed_byte_does_not_check(rt: HostRuntime) {
    assert_eq!(rt; check_of::<RingSealer>(KEY, CARD), Ok(3));
    for (i, byte) in CARD.iter().enumerate() {
        let mut changed = *CARD;
        changed[i] = *byte ^ 1;
        assert_eq!(rt; check_of::<RingSealer>(KEY, &changed), Err(fault_at(i)));
    }
}

#[test]
fn a_card_of_another_key_or_suite_does_not_check(rt: HostRuntime) {
    assert_eq!(rt; check_of::<RingSealer>(&[1; 16], CARD), Err((6, 1, 0, 27)));
    assert_eq!(rt; check_of::<BenchSealer>(KEY, CARD), Err((12, 3, 0, 3)));
}
