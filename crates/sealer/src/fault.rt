ghost use Rattle.std.specs.Prelude.{◌≡◌};
ghost use Rattle.sealer.specs.Fault.{fault_number, fault_layer};

// The cipher is the first layer.
const LAYER: u8 = 1;

/// Why seal, open or test refuses: each question with its number, in the order in which they are asked (docs/cipher.md).
#[derive(Clone, Copy, Debug, PartialEq, Eq)]
pub enum SealFault {
    /// The key has not 16 bytes.
    KeyLength = 1,
    /// The nonce has not 16 bytes.
    NonceLength = 2,
    /// Data, or message or ciphertext, has more than 65,535 bytes.
    TooLong = 3,
    /// The output is shorter than the message, or test's scratch than 16 bytes.
    OutputShort = 4,
    /// The tag, or its buffer, has not the sealer's width.
    TagLength = 5,
    /// The tag is not that of the message.
    TagMismatch = 6,
}

impl SealFault {
    /// The number of the question that got a no, 1 to 6.
    pub fn number(&self) -> u8
        ensures { result ≡ fault_number self.now }
    {
        *self as u8
    }

    /// The layer that refuses: always 1, the cipher's.
    pub fn layer(&self) -> u8
        ensures { result ≡ fault_layer self.now }
    {
        LAYER
    }
}
