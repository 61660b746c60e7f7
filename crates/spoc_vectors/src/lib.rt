// Tests of SpoC and its permutations: published first steps and vectors, and lengths that seal and open refuse.
#![tactic(auto)]

#[cfg(test)]
mod tests {
    use permutations::Bench;
    use sealer::SealFault;
    use spoc::{Spoc64, Spoc128, Suite};
    use std::process::Abort;

    // Both vectors have one key, nonce, data and message.
    const KEY: [u8; 16] = [
        0x00, 0x11, 0x11, 0x22, 0x33, 0x55, 0x88, 0xDD, 0x00, 0x11, 0x11, 0x22, 0x33, 0x55, 0x88,
        0xDD,
    ];

    const NONCE: [u8; 16] = [
        0x11, 0x11, 0x22, 0x33, 0x55, 0x88, 0xDD, 0x00, 0x11, 0x11, 0x22, 0x33, 0x55, 0x88, 0xDD,
        0x00,
    ];

    const DATA: [u8; 15] = [
        0x11, 0x22, 0x33, 0x55, 0x88, 0xDD, 0x00, 0x11, 0x11, 0x22, 0x33, 0x55, 0x88, 0xDD, 0x00,
    ];

    const MESSAGE: [u8; 15] = [
        0x33, 0x55, 0x88, 0xDD, 0x00, 0x11, 0x11, 0x22, 0x33, 0x55, 0x88, 0xDD, 0x00, 0x11, 0x11,
    ];

    const CIPHERTEXT_64: [u8; 15] = [
        0xB1, 0x16, 0x63, 0xDA, 0x2A, 0x4B, 0x95, 0x5F, 0xB0, 0x49, 0x9B, 0xCA, 0xB9, 0xAD, 0x6F,
    ];

    const TAG_64: [u8; 8] = [0xF4, 0x47, 0xB9, 0x54, 0xEF, 0x85, 0x2C, 0xC1];

    const CIPHERTEXT_128: [u8; 15] = [
        0xA1, 0xF2, 0xFE, 0x57, 0xA1, 0x95, 0x6C, 0x02, 0x55, 0xC6, 0xB9, 0xB2, 0x25, 0xED, 0x39,
    ];

    const TAG_128: [u8; 16] = [
        0x74, 0x5D, 0x95, 0x28, 0x5F, 0x4B, 0xE3, 0xBE, 0x99, 0xCC, 0x0A, 0xDA, 0x3E, 0xF9, 0x52,
        0x1B,
    ];

    // The vector of a suite is sealed, and opens again.
    fn sealed_and_opened<const B: usize, S: Suite<B>, const R: usize>(
        rt: &impl Abort,
        ciphertext: [u8; 15],
        tag: [u8; R],
    ) {
        let mut out = [0; 15];
        let mut sealed = [0; R];
        assert_eq!(rt;
            spoc::seal::<B, S>(&KEY, &NONCE, &DATA, &MESSAGE, &mut out, &mut sealed),
            Ok(())
        );
        assert_eq!(rt; out, ciphertext);
        assert_eq!(rt; sealed, tag);
        let mut message = [0; 15];
        assert_eq!(rt;
            spoc::open::<B, S>(&KEY, &NONCE, &DATA, &ciphertext, &mut message, &tag),
            Ok(())
        );
        assert_eq!(rt; message, MESSAGE);
        let mut scratch = [7; 17];
        assert_eq!(rt;
            spoc::test::<B, S>(&KEY, &NONCE, &DATA, &ciphertext, &mut scratch, &tag),
            Ok(())
        );
        assert_eq!(rt; scratch, *b"\0\0\0\0\0\0\0\0\0\0\0\0\0\0\0\0\x07");
    }

    #[test]
    fn spoc64_vector_is_sealed_and_opened(rt: HostRuntime) {
        sealed_and_opened::<24, Spoc64, 8>(&rt, CIPHERTEXT_64, TAG_64);
    }

    #[test]
    fn spoc128_vector_is_sealed_and_opened(rt: HostRuntime) {
        sealed_and_opened::<32, Spoc128, 16>(&rt, CIPHERTEXT_128, TAG_128);
    }

    #[test]
    fn another_tag_leaves_zeros(rt: HostRuntime) {
        let mut message = [7; 16];
        let answer = spoc::open::<24, Spoc64>(
            &KEY,
            &NONCE,
            &DATA,
            &CIPHERTEXT_64,
            &mut message,
            &[0; 8],
        );
        assert_eq!(rt; answer, Err(SealFault::TagMismatch));
        assert_eq!(rt; message, [0, 0, 0, 0, 0, 0, 0, 0, 0, 0, 0, 0, 0, 0, 0, 7]);
        let mut scratch = [7; 16];
        let answer = spoc::test::<24, Spoc64>(
            &KEY,
            &NONCE,
            &DATA,
            &CIPHERTEXT_64,
            &mut scratch,
            &[0; 8],
        );
        assert_eq!(rt; answer, Err(SealFault::TagMismatch));
        assert_eq!(rt; scratch, [0; 16]);
    }

    #[test]
    fn test_asks_for_16_bytes(rt: HostRuntime) {
        let mut scratch = [7; 15];
        let answer = spoc::test::<24, Spoc64>(
            &KEY,
            &NONCE,
            &DATA,
            &CIPHERTEXT_64,
            &mut scratch,
            &TAG_64,
        );
        assert_eq!(rt; answer, Err(SealFault::OutputShort));
        assert_eq!(rt; scratch, [7; 15]);
    }

    #[test]
    fn data_of_65535_bytes_passes(rt: HostRuntime) {
        let data = [0; 65535];
        let mut tag = [0; 8];
        assert_eq!(rt;
            spoc::seal_and_open::<32, Bench>(&KEY, &NONCE, &data, &[], &mut [], &mut [], &mut tag),
            Ok(())
        );
    }

    #[test]
    fn data_of_65536_bytes_is_refused(rt: HostRuntime) {
        let data = [0; 65536];
        let mut tag = [0; 8];
        assert_eq!(rt;
            spoc::open::<32, Bench>(&KEY, &NONCE, &data, &[], &mut [], &tag),
            Err(SealFault::TooLong)
        );
        assert_eq!(rt;
            spoc::seal::<32, Bench>(&KEY, &NONCE, &data, &[], &mut [], &mut tag),
            Err(SealFault::TooLong)
        );
    }

    #[test]
    fn a_message_of_65535_bytes_passes(rt: HostRuntime) {
        let message = [0; 65535];
        let mut sealed = [0; 65535];
        let mut out = [0; 65535];
        let mut tag = [0; 8];
        assert_eq!(rt;
            spoc::seal_and_open::<32, Bench>(
                &KEY,
                &NONCE,
                &[],
                &message,
                &mut sealed,
                &mut out,
                &mut tag,
            ),
            Ok(())
        );
    }

    #[test]
    fn a_message_of_65536_bytes_is_refused(rt: HostRuntime) {
        let message = [0; 65536];
        let mut out = [0; 65536];
        let mut tag = [0; 8];
        assert_eq!(rt;
            spoc::open::<32, Bench>(&KEY, &NONCE, &[], &message, &mut out, &tag),
            Err(SealFault::TooLong)
        );
        assert_eq!(rt;
            spoc::seal::<32, Bench>(&KEY, &NONCE, &[], &message, &mut out, &mut tag),
            Err(SealFault::TooLong)
        );
    }

    #[test]
    fn the_first_steps_are_the_published_ones(rt: HostRuntime) {
        let first = permutations::first_steps();
        assert_eq!(rt;
            first.light192,
            [
                0xFF, 0xFF, 0x9A, 0xFF, 0xFF, 0xFC, 0x00, 0x00, 0x64, 0x00, 0x00, 0xD5, 0xFF, 0xFF,
                0x9B, 0xFF, 0xFF, 0xFC, 0x00, 0x00, 0x65, 0x00, 0x00, 0xF4,
            ]
        );
        assert_eq!(rt;
            first.light256,
            [
                0x00, 0x00, 0x0C, 0x6F, 0x00, 0x00, 0x04, 0x26, 0xFF, 0xFF, 0xE3, 0xC3, 0xFF, 0xFF,
                0xF3, 0x48, 0x00, 0x00, 0x1C, 0x3C, 0x00, 0x00, 0x0C, 0x2C, 0xFF, 0xFF, 0xF3, 0x90,
                0xFF, 0xFF, 0xFB, 0x2E,
            ]
        );
    }

    #[test]
    fn the_bench_example_is_as_worked_by_hand(rt: HostRuntime) {
        let example = spoc::bench_example();
        assert_eq!(rt; example.ciphertext, [0x21; 8]);
        assert_eq!(rt;
            example.tag,
            [0x1F, 0x3F, 0x3F, 0x3F, 0x3F, 0x3F, 0x3F, 0x3F]
        );
    }
}
