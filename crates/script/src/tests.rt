use crate::bytes::{Hex, read_byte, read_bytes};
use crate::line::{is_silent, without_return};
use crate::names::{CallName, PermutationName, ReaderCall, WriterCall};
use crate::number::{read_cell, read_edition, read_number};
use crate::unread::Unread;
use crate::words::Words;
use std::test::Fail;

#[test]
fn bytes_and_reasons(rt: HostRuntime) -> Result<(), Fail> {
    let rows: [(&[u8], &str); 8] = [
        (b"-", "-"),
        (b"00", "00"),
        (b"09afAF9f", "09AFAF9F"),
        (b"", "words are separated by one space"),
        (b"001", "odd number of digits"),
        (b"0g", "not a hexadecimal digit"),
        (b"0:1", "not a hexadecimal digit"),
        (b"--", "not a hexadecimal digit"),
    ];
    for (word, want) in rows {
        let said = match read_bytes(rt.alloc(), word) {
            Ok(bytes) => Hex(bytes.as_slice()).to_string(rt.alloc())?,
            Err(reason) => reason.to_string(rt.alloc())?,
        };
        assert_eq!(rt; said.as_str(), want);
    }
    Ok(())
}

#[test]
fn numbers_and_reasons(rt: HostRuntime) -> Result<(), Fail> {
    let rows: [(&[u8], &str); 8] = [
        (b"0", "0"),
        (b"007", "7"),
        (b"18446744073709551615", "18446744073709551615"),
        (b"18446744073709551616", "a number of more than 64 bits"),
        (b"99999999999999999999x", "not a decimal number"),
        (b"", "words are separated by one space"),
        (b"+1", "not a decimal number"),
        (b"1a", "not a decimal number"),
    ];
    for (word, want) in rows {
        let said = match read_number(word) {
            Ok(n) => n.to_string(rt.alloc())?,
            Err(reason) => reason.to_string(rt.alloc())?,
        };
        assert_eq!(rt; said.as_str(), want);
    }
    Ok(())
}

#[test]
fn words_of_a_line(rt: HostRuntime) -> Result<(), Fail> {
    let mut words = Words::new(without_return(b"back  192\r"));
    assert_eq!(rt; words.next_word()?, b"back".as_slice());
    assert_eq!(rt; words.next_word().err(), Some(Unread::EmptyWord));
    assert_eq!(rt; words.finish(), Err(Unread::TooManyWords));
    assert_eq!(rt; words.next_word()?, b"192".as_slice());
    assert_eq!(rt; words.finish(), Ok(()));
    assert_eq!(rt; words.next_word().err(), Some(Unread::TooFewWords));
    assert!(rt; is_silent(b"") && is_silent(b"# back") && !is_silent(b" # back"));
    Ok(())
}

#[test]
fn wrong_length(rt: HostRuntime) -> Result<(), Fail> {
    let reason = Unread::StateLength {
        of: PermutationName::Light192,
        expected: 24,
        found: 23,
    };
    assert_eq!(rt;
        reason.to_string(rt.alloc())?.as_str(),
        "a state of 192 has 24 bytes, not 23"
    );
    Ok(())
}

#[test]
fn calls_on_cards(rt: HostRuntime) -> Result<(), Fail> {
    let rows: [(&[u8], Result<CallName, Unread>); 9] = [
        (b"check", Ok(CallName::Reader(ReaderCall::Check))),
        (b"sheet", Ok(CallName::Reader(ReaderCall::Sheet))),
        (b"find", Ok(CallName::Reader(ReaderCall::Find))),
        (b"write", Ok(CallName::Write)),
        (b"append", Ok(CallName::Writer(WriterCall::Append))),
        (b"close", Ok(CallName::Writer(WriterCall::Close))),
        (b"end", Ok(CallName::Writer(WriterCall::End))),
        (b"Check", Err(Unread::UnknownCall)),
        (b"finds", Err(Unread::UnknownCall)),
    ];
    for (word, want) in rows {
        assert_eq!(rt; CallName::try_from(word), want);
    }
    Ok(())
}

#[test]
fn cells_editions_and_one_byte(rt: HostRuntime) -> Result<(), Fail> {
    assert_eq!(rt; read_cell(b"4294967295"), Ok(u32::MAX));
    assert_eq!(rt; read_cell(b"4294967296"), Err(Unread::CellTooLarge));
    assert_eq!(rt;
        read_cell(b"18446744073709551616"),
        Err(Unread::CellTooLarge)
    );
    assert_eq!(rt; read_cell(b"x"), Err(Unread::NotANumber));
    assert_eq!(rt; read_edition(b"065535"), Ok(u16::MAX));
    assert_eq!(rt; read_edition(b"65536"), Err(Unread::EditionTooLarge));
    assert_eq!(rt; read_edition(b""), Err(Unread::EmptyWord));
    assert_eq!(rt; read_byte(rt.alloc(), b"eE"), Ok(0xEE));
    assert_eq!(rt; read_byte(rt.alloc(), b"-"), Err(Unread::NotOneByte));
    assert_eq!(rt; read_byte(rt.alloc(), b"0001"), Err(Unread::NotOneByte));
    assert_eq!(rt; read_byte(rt.alloc(), b"000"), Err(Unread::OddDigits));
    let rows: [(Unread, &str); 5] = [
        (Unread::CellTooLarge, "a number of more than 32 bits"),
        (Unread::EditionTooLarge, "a number of more than 16 bits"),
        (Unread::NotOneByte, "not one byte"),
        (Unread::NoCard, "no card is being written"),
        (Unread::CardOpen, "a card is being written"),
    ];
    for (reason, want) in rows {
        assert_eq!(rt; reason.to_string(rt.alloc())?.as_str(), want);
    }
    Ok(())
}
