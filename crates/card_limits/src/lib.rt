// Tests of writer and reader at the limits: the lengths of media, bodies, scratch and buffers, the number of sheets, the order of questions, and the bytes that stay.
#![tactic(auto)]

ghost use Rattle.std.specs.Prelude.{◌<◌, ◌≤◌};

#[cfg(test)]
mod tests {
    use cards::CardFault;
    use reader::{Card, SheetHead, sheet};
    use sealer::Sealer;
    use spoc_sealer::{BenchSealer, Spoc64Sealer, Spoc128Sealer};
    use std::process::Abort;
    use std::test::Fail;
    use writer::{Unclosed, Writer};

    const KEY: &[u8; 16] = b"\x01\x01\x01\x01\x01\x01\x01\x01\x02\x02\x02\x02\x02\x02\x02\x02";

    const NUMBER: u64 = 0x0404_0404_0404_0404;

    // The bench card without sheets.
    const BARE: &[u8; 30] =
        b"SEA\x00\x09\x04\x04\x04\x04\x04\x04\x04\x04\x02\x00\x00\x00\x00\x00\x00\x00\x00\x51\x47\x43\x02\x0b\x00\x82\x02";

    // The bench card of one sheet: cell 7, edition 3, body 41 42.
    const ONE: &[u8; 49] =
        b"SEA\x00\x09\x04\x04\x04\x04\x04\x04\x04\x04\x01\x00\x00\x00\x07\x00\x03\x00\x02\x13\x06\x72\x46\x83\x00\x03\x04\x87\x07\x02\x00\x00\x00\x01\x00\x00\x00\x00\x51\x46\x43\x02\x0b\x00\x82\x03";

    // The number, layer, record and place that a refusal has to have.
    fn refused<T: Drop>(
        rt: &impl Abort,
        answer: Result<T, CardFault>,
        says: (u8, u8, usize, usize),
    ) -> Result<(), Fail> {
        match answer {
            Ok(_) => Err(Fail::new("not refused")),
            Err(fault) => {
                assert_eq!(rt;
                    (fault.number(), fault.layer(), fault.record(), fault.place()),
                    says
                );
                Ok(())
            },
        }
    }

    fn start_on<C: Sealer>(medium: &mut [u8]) -> Result<(), CardFault> {
        let _ = Writer::<C>::start(KEY, NUMBER, medium)?;
        Ok(())
    }

    // Appends a body of one byte to a new card.
    fn append_on<C: Sealer>(medium: &mut [u8]) -> Result<usize, CardFault> {
        let mut writer = Writer::<C>::start(KEY, NUMBER, medium)?;
        writer.append(medium, 7, 3, b"A")
    }

    fn close<C: Sealer>(writer: Writer<C>, medium: &mut [u8]) -> Result<usize, CardFault> {
        Ok(writer.close(medium)?)
    }

    // The fewest bytes of a medium on which a card starts, and those on which it then takes a body of one byte.
    fn shortest<C: Sealer>(rt: &impl Abort, start: usize, append: usize) -> Result<(), Fail>
        requires { (0 < start) × (start ≤ 64) × (0 < append) × (append ≤ 64) }
    {
        refused(rt, start_on::<C>(&mut [7; 64][..start - 1]), (9, 3, 0, 0))?;
        assert_eq!(rt; start_on::<C>(&mut [7; 64][..start]), Ok(()));
        refused(
            rt,
            append_on::<C>(&mut [7; 64][..append - 1]),
            (9, 2, 0, 13),
        )?;
        assert_eq!(rt; append_on::<C>(&mut [7; 64][..append]), Ok(0));
        Ok(())
    }

    #[test]
    fn shortest_media(rt: HostRuntime) -> Result<(), Fail> {
        shortest::<Spoc64Sealer>(&rt, 30, 48)?;
        shortest::<Spoc128Sealer>(&rt, 38, 64)?;
        shortest::<BenchSealer>(&rt, 30, 48)
    }

    #[test]
    fn bytes_beyond_a_call_stay(rt: HostRuntime) -> Result<(), Fail> {
        let card: &[u8] = BARE;
        let mut short = [7; 29];
        refused(&rt, start_on::<BenchSealer>(&mut short), (9, 3, 0, 0))?;
        assert_eq!(rt; short, [7; 29]);
        let mut medium = [7; 64];
        assert_eq!(rt; append_on::<BenchSealer>(&mut medium), Ok(0));
        assert_eq!(rt; &medium[0..13], &card[0..13]);
        assert_eq!(rt; &medium[31..64], [7; 33].as_slice());
        let mut medium = [7; 33];
        assert_eq!(rt; known::bench_card(&mut medium), Ok(30));
        assert_eq!(rt; &medium[0..30], card);
        assert_eq!(rt; &medium[30..33], [7; 3].as_slice());
        Ok(())
    }

    #[test]
    fn longest_body_and_the_order_of_questions(rt: HostRuntime) -> Result<(), Fail> {
        let body = [5; 4097];
        let mut medium = [7; 8300];
        let mut writer = Writer::<BenchSealer>::start(KEY, NUMBER, &mut medium)?;
        assert_eq!(rt; writer.append(&mut medium, 7, 3, &body[0..4096]), Ok(0));
        refused(
            &rt,
            writer.append(&mut medium, 7, 3, &body),
            (7, 2, 1, 4126),
        )?;
        refused(&rt, writer.append(&mut [], 7, 3, &body), (7, 2, 1, 4126))?;
        refused(&rt, writer.append(&mut [], 7, 3, &[]), (9, 2, 1, 4126))?;
        assert_eq!(rt; &medium[4126..8300], [7; 4174].as_slice());
        assert_eq!(rt; close(writer, &mut medium), Ok(4143));
        Ok(())
    }

    // Appends as many empty sheets as a card may have; each answers its number.
    fn append_most(rt: &impl Abort, writer: &mut Writer<BenchSealer>, medium: &mut [u8]) {
        for i in 0..512 {
            assert_eq!(rt; writer.append(medium, 0, 0, &[]), Ok(i));
        }
    }

    #[test]
    fn most_sheets(rt: HostRuntime) -> Result<(), Fail> {
        let mut medium = [7; 8800];
        let mut writer = Writer::<BenchSealer>::start(KEY, NUMBER, &mut medium)?;
        append_most(&rt, &mut writer, &mut medium);
        refused(
            &rt,
            writer.append(&mut medium, 0, 0, &[]),
            (8, 2, 512, 8717),
        )?;
        refused(
            &rt,
            writer.append(&mut [], 0, 0, &[0; 4097]),
            (8, 2, 512, 8717),
        )?;
        assert_eq!(rt; close(writer, &mut medium), Ok(8734));
        assert_eq!(rt; check_of(&medium[0..8734]), Ok(512));
        Ok(())
    }

    #[test]
    fn a_refused_close_gives_the_writer_back(rt: HostRuntime) -> Result<(), Fail> {
        let mut medium = [7; 50];
        let mut writer = Writer::<BenchSealer>::start(KEY, NUMBER, &mut medium)?;
        assert_eq!(rt; writer.append(&mut medium, 7, 3, b"\x41\x42"), Ok(0));
        let mut short = [7; 48];
        let Err(unclosed) = writer.close(&mut short) else {
            return Err(Fail::new("not refused"));
        };
        let Unclosed { writer, fault } = unclosed;
        refused::<()>(&rt, Err(fault), (9, 3, 1, 32))?;
        assert_eq!(rt; short, [7; 48]);
        assert_eq!(rt; close(writer, &mut medium), Ok(49));
        assert_eq!(rt; &medium[0..49], ONE.as_slice());
        assert_eq!(rt; medium[49], 7);
        Ok(())
    }

    // Checks a bench card, and answers how many sheets it has.
    fn check_of(bytes: &[u8]) -> Result<usize, CardFault> {
        let mut card = Card::empty();
        reader::check::<BenchSealer>(KEY, bytes, &mut [7; 16], &mut card)?;
        Ok(card.count())
    }

    #[test]
    fn a_card_cut_lengthened_and_changed(rt: HostRuntime) -> Result<(), Fail> {
        let card: &[u8] = BARE;
        let mut more = [0; 31];
        more[0..30].copy_from_slice(card);
        let mut changed = *BARE;
        changed[29] = 3;
        assert_eq!(rt; check_of(card), Ok(0));
        let rows: [(&[u8], (u8, u8, usize, usize)); 4] = [
            (&[], (10, 3, 0, 0)),
            (&card[0..29], (10, 2, 0, 22)),
            (&more, (15, 3, 0, 30)),
            (&changed, (6, 1, 0, 22)),
        ];
        for (bytes, says) in &rows {
            refused(&rt, check_of(bytes), *says)?;
        }
        Ok(())
    }

    #[test]
    fn scratch(rt: HostRuntime) -> Result<(), Fail> {
        let mut card = Card::empty();
        let mut short = [7; 15];
        refused(
            &rt,
            reader::check::<BenchSealer>(&[1; 15], BARE, &mut short, &mut card),
            (1, 1, 0, 0),
        )?;
        refused(
            &rt,
            reader::check::<BenchSealer>(KEY, BARE, &mut short, &mut card),
            (4, 1, 0, 0),
        )?;
        assert_eq!(rt; short, [7; 15]);
        let mut long = [7; 19];
        reader::check::<BenchSealer>(KEY, ONE, &mut long, &mut card)?;
        assert_eq!(rt; &long[0..16], [0; 16].as_slice());
        assert_eq!(rt; &long[16..19], [7; 3].as_slice());
        Ok(())
    }

    #[test]
    fn the_order_of_questions_of_sheet(rt: HostRuntime) -> Result<(), Fail> {
        let mut card = Card::empty();
        let mut short = [7; 1];
        refused(
            &rt,
            sheet::<BenchSealer>(&card, 0, &mut short),
            (12, 3, 0, 0),
        )?;
        reader::check::<BenchSealer>(KEY, ONE, &mut [7; 16], &mut card)?;
        refused(
            &rt,
            sheet::<Spoc64Sealer>(&card, 9, &mut short),
            (12, 3, 9, 0),
        )?;
        refused(
            &rt,
            sheet::<BenchSealer>(&card, 1, &mut short),
            (16, 3, 1, 0),
        )?;
        refused(
            &rt,
            sheet::<BenchSealer>(&card, 0, &mut short),
            (4, 1, 0, 22),
        )?;
        assert_eq!(rt; short, [7; 1]);
        let mut buffer = [7; 4];
        let head = sheet::<BenchSealer>(&card, 0, &mut buffer)?;
        assert_eq!(rt;
            head,
            SheetHead {
                cell: 7,
                edition: 3,
                length: 2,
            }
        );
        assert_eq!(rt; buffer, [0x41, 0x42, 7, 7]);
        Ok(())
    }
}
