/// The constants of one step: the round constants of its two boxes, and its two step constants
/// (docs/permutations.md).
#[derive(Clone, Copy)]
pub struct StepConstants {
    /// The round constant of the box of subblock 1.
    pub rc0: u8,
    /// The round constant of the box of subblock 3.
    pub rc1: u8,
    /// The step constant that goes into the new subblock 3.
    pub sc0: u8,
    /// The step constant that goes into the new subblock 1.
    pub sc1: u8,
}

/// How many steps each sLiSCP-light permutation has (docs/permutations.md).
pub const STEPS: usize = 18;

// sLiSCP-light-[192]
#[rattlefmt::skip]
pub(crate) static CONSTANTS_192: [StepConstants; STEPS] = [
    StepConstants { rc0: 0x07, rc1: 0x27, sc0: 0x08, sc1: 0x29 },
    StepConstants { rc0: 0x04, rc1: 0x34, sc0: 0x0c, sc1: 0x1d },
    StepConstants { rc0: 0x06, rc1: 0x2e, sc0: 0x0a, sc1: 0x33 },
    StepConstants { rc0: 0x25, rc1: 0x19, sc0: 0x2f, sc1: 0x2a },
    StepConstants { rc0: 0x17, rc1: 0x35, sc0: 0x38, sc1: 0x1f },
    StepConstants { rc0: 0x1c, rc1: 0x0f, sc0: 0x24, sc1: 0x10 },
    StepConstants { rc0: 0x12, rc1: 0x08, sc0: 0x36, sc1: 0x18 },
    StepConstants { rc0: 0x3b, rc1: 0x0c, sc0: 0x0d, sc1: 0x14 },
    StepConstants { rc0: 0x26, rc1: 0x0a, sc0: 0x2b, sc1: 0x1e },
    StepConstants { rc0: 0x15, rc1: 0x2f, sc0: 0x3e, sc1: 0x31 },
    StepConstants { rc0: 0x3f, rc1: 0x38, sc0: 0x01, sc1: 0x09 },
    StepConstants { rc0: 0x20, rc1: 0x24, sc0: 0x21, sc1: 0x2d },
    StepConstants { rc0: 0x30, rc1: 0x36, sc0: 0x11, sc1: 0x1b },
    StepConstants { rc0: 0x28, rc1: 0x0d, sc0: 0x39, sc1: 0x16 },
    StepConstants { rc0: 0x3c, rc1: 0x2b, sc0: 0x05, sc1: 0x3d },
    StepConstants { rc0: 0x22, rc1: 0x3e, sc0: 0x27, sc1: 0x03 },
    StepConstants { rc0: 0x13, rc1: 0x01, sc0: 0x34, sc1: 0x02 },
    StepConstants { rc0: 0x1a, rc1: 0x21, sc0: 0x2e, sc1: 0x23 },
];

// sLiSCP-light-[256]
#[rattlefmt::skip]
pub(crate) static CONSTANTS_256: [StepConstants; STEPS] = [
    StepConstants { rc0: 0x0f, rc1: 0x47, sc0: 0x08, sc1: 0x64 },
    StepConstants { rc0: 0x04, rc1: 0xb2, sc0: 0x86, sc1: 0x6b },
    StepConstants { rc0: 0x43, rc1: 0xb5, sc0: 0xe2, sc1: 0x6f },
    StepConstants { rc0: 0xf1, rc1: 0x37, sc0: 0x89, sc1: 0x2c },
    StepConstants { rc0: 0x44, rc1: 0x96, sc0: 0xe6, sc1: 0xdd },
    StepConstants { rc0: 0x73, rc1: 0xee, sc0: 0xca, sc1: 0x99 },
    StepConstants { rc0: 0xe5, rc1: 0x4c, sc0: 0x17, sc1: 0xea },
    StepConstants { rc0: 0x0b, rc1: 0xf5, sc0: 0x8e, sc1: 0x0f },
    StepConstants { rc0: 0x47, rc1: 0x07, sc0: 0x64, sc1: 0x04 },
    StepConstants { rc0: 0xb2, rc1: 0x82, sc0: 0x6b, sc1: 0x43 },
    StepConstants { rc0: 0xb5, rc1: 0xa1, sc0: 0x6f, sc1: 0xf1 },
    StepConstants { rc0: 0x37, rc1: 0x78, sc0: 0x2c, sc1: 0x44 },
    StepConstants { rc0: 0x96, rc1: 0xa2, sc0: 0xdd, sc1: 0x73 },
    StepConstants { rc0: 0xee, rc1: 0xb9, sc0: 0x99, sc1: 0xe5 },
    StepConstants { rc0: 0x4c, rc1: 0xf2, sc0: 0xea, sc1: 0x0b },
    StepConstants { rc0: 0xf5, rc1: 0x85, sc0: 0x0f, sc1: 0x47 },
    StepConstants { rc0: 0x07, rc1: 0x23, sc0: 0x04, sc1: 0xb2 },
    StepConstants { rc0: 0x82, rc1: 0xd9, sc0: 0x43, sc1: 0xb5 },
];
