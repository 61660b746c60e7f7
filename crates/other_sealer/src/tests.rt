use crate::first_byte::FirstByte;
use cards::CardFault;
use reader::{Card, SheetHead, find, sheet};
use sealer::{SealFault, Sealer};
use std::process::Abort;
use std::test::Fail;
use writer::{Call, Writer, replay};

const KEY: &[u8; 16] = b"\x01\x01\x01\x01\x01\x01\x01\x01\x02\x02\x02\x02\x02\x02\x02\x02";

// A key with another first byte, which the tag tells, and one with another last byte, which it doesn't.
const OTHER_KEY: &[u8; 16] = b"\x03\x01\x01\x01\x01\x01\x01\x01\x02\x02\x02\x02\x02\x02\x02\x02";

const LIKE_KEY: &[u8; 16] = b"\x01\x01\x01\x01\x01\x01\x01\x01\x02\x02\x02\x02\x02\x02\x02\x03";

const NONCE: &[u8; 16] = &[4; 16];

const NUMBER: u64 = 0x0404_0404_0404_0404;

// A card of two sheets, as whoever knows the format writes it down: version 778, bodies in the clear, each tag 01.
const CARD: &[u8; 54] =
    b"SEA\x03\x0a\x04\x04\x04\x04\x04\x04\x04\x04\x01\x00\x00\x00\x07\x00\x01\x00\x05shoal\x01\x01\x00\x00\x00\x09\x00\x02\x00\x06deeper\x01\x02\x00\x00\x00\x02\x00\x00\x00\x00\x01";

#[test]
fn a_message_is_its_ciphertext(rt: HostRuntime) {
    let mut out = [7; 8];
    let mut tag = [7; 1];
    assert_eq!(rt;
        FirstByte::seal(KEY, NONCE, b"chart", b"shoal", &mut out, &mut tag),
        Ok(())
    );
    assert_eq!(rt; out, *b"shoal\x07\x07\x07");
    assert_eq!(rt; tag, [1]);
    let mut back = [7; 6];
    assert_eq!(rt;
        FirstByte::open(KEY, NONCE, b"chart", b"shoal", &mut back, &tag),
        Ok(())
    );
    assert_eq!(rt; back, *b"shoal\x07");
    assert_eq!(rt;
        FirstByte::open(OTHER_KEY, NONCE, b"chart", b"shoal", &mut back, &tag),
        Err(SealFault::TagMismatch)
    );
    assert_eq!(rt; back, *b"\0\0\0\0\0\x07");
}

// What test answers, and what it leaves of sevens.
fn tested(key: &[u8], tag: &[u8]) -> (Result<(), SealFault>, [u8; 18]) {
    let mut scratch = [7; 18];
    let answer = FirstByte::test(key, NONCE, b"chart", b"shoal", &mut scratch, tag);
    (answer, scratch)
}

#[test]
fn test_wipes_sixteen_bytes(rt: HostRuntime) {
    let wiped = *b"\0\0\0\0\0\0\0\0\0\0\0\0\0\0\0\0\x07\x07";
    assert_eq!(rt; tested(KEY, &[1]), (Ok(()), wiped));
    assert_eq!(rt; tested(KEY, &[2]), (Err(SealFault::TagMismatch), wiped));
    assert_eq!(rt; tested(KEY, &[]), (Err(SealFault::TagLength), [7; 18]));
    assert_eq!(rt;
        tested(&[1; 15], &[1]),
        (Err(SealFault::KeyLength), [7; 18])
    );
    let mut short = [7; 15];
    assert_eq!(rt;
        FirstByte::test(KEY, NONCE, b"", b"", &mut short, &[1]),
        Err(SealFault::OutputShort)
    );
    assert_eq!(rt; short, [7; 15]);
}

// The sheets of the card: cell, edition and body.
fn sheets() -> [(u32, u16, &'static [u8]); 2] {
    [(7, 1, b"shoal"), (9, 2, b"deeper")]
}

// Writes the card, and answers its length.
fn write(rt: &impl Abort, medium: &mut [u8]) -> Result<usize, CardFault> {
    let mut writer = Writer::<FirstByte>::start(KEY, NUMBER, medium)?;
    for (i, (cell, edition, body)) in sheets().iter().enumerate() {
        assert_eq!(rt; writer.append(medium, *cell, *edition, body), Ok(i));
    }
    Ok(writer.close(medium)?)
}

#[test]
fn a_card_is_written(rt: HostRuntime) {
    let mut medium = [7; 56];
    assert_eq!(rt; write(&rt, &mut medium), Ok(54));
    assert_eq!(rt; medium.first_chunk(), Some(CARD));
    assert_eq!(rt; medium.last_chunk(), Some(&[7; 2]));
}

#[test]
fn the_card_reads_back(rt: HostRuntime) -> Result<(), Fail> {
    let mut card = Card::empty();
    let mut scratch = [7; 18];
    reader::check::<FirstByte>(KEY, CARD, &mut scratch, &mut card)?;
    assert_eq!(rt; scratch, *b"\0\0\0\0\0\0\0\0\0\0\0\0\0\0\0\0\x07\x07");
    assert_eq!(rt; card.count(), 2);
    for (i, (cell, edition, body)) in sheets().iter().enumerate() {
        let mut buffer = [7; 16];
        let head = sheet::<FirstByte>(&card, i, &mut buffer)?;
        assert_eq!(rt;
            head,
            SheetHead {
                cell: *cell,
                edition: *edition,
                length: body.len(),
            }
        );
        assert_eq!(rt; buffer.get(..body.len()), Some(*body));
        assert_eq!(rt; buffer.get(body.len()..), [7; 16].get(body.len()..));
    }
    assert_eq!(rt; find(&card, 9), Some(1));
    assert_eq!(rt; find(&card, 8), None);
    Ok(())
}

// A fault as number, layer, record and place.
type Fault = (u8, u8, usize, usize);

fn said(answer: Result<usize, CardFault>) -> Result<usize, Fault> {
    answer.map_err(|fault| (fault.number(), fault.layer(), fault.record(), fault.place()))
}

// How many sheets check finds under a key.
fn check_of(key: &[u8], bytes: &[u8]) -> Result<usize, Fault> {
    let mut card = Card::empty();
    let answer = reader::check::<FirstByte>(key, bytes, &mut [7; 16], &mut card);
    said(answer.map(|()| card.count()))
}

#[test]
fn another_key_or_tag_does_not_check(rt: HostRuntime) {
    assert_eq!(rt; check_of(KEY, CARD), Ok(2));
    assert_eq!(rt; check_of(LIKE_KEY, CARD), Ok(2));
    assert_eq!(rt; check_of(OTHER_KEY, CARD), Err((6, 1, 0, 27)));
    let mut changed = *CARD;
    changed[43] = 2;
    assert_eq!(rt; check_of(KEY, &changed), Err((6, 1, 1, 43)));
    let mut ended = *CARD;
    ended[53] = 2;
    assert_eq!(rt; check_of(KEY, &ended), Err((6, 1, 2, 53)));
    let mut version = *CARD;
    version[4] = 9;
    assert_eq!(rt; check_of(KEY, &version), Err((12, 3, 0, 3)));
}

#[test]
fn calls_are_replayed(rt: HostRuntime) -> Result<(), Fail> {
    let mut medium = [7; 54];
    let [(cell, edition, body), (next, newer, deeper)] = sheets();
    let calls = [
        Call::Append {
            cell,
            edition,
            body,
        },
        Call::Append {
            cell: 8,
            edition: 1,
            body: &[0; 4097],
        },
        Call::Append {
            cell: next,
            edition: newer,
            body: deeper,
        },
        Call::Close,
    ];
    let mut answers = [Ok(0); 4];
    let writer = Writer::<FirstByte>::start(KEY, NUMBER, &mut medium)?;
    assert_eq!(rt; replay(writer, &mut medium, &calls, &mut answers).made, 4);
    assert_eq!(rt;
        answers.map(said),
        [Ok(0), Err((7, 2, 1, 28)), Ok(1), Ok(54)]
    );
    assert_eq!(rt; medium, *CARD);
    Ok(())
}
