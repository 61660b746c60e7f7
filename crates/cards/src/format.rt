ghost use Rattle.std.specs.Prelude.{◌≡◌, ◌++◌};
ghost use Rattle.cards.specs.Format.{nonce, header as header_of, head};

/// The letters that a card begins with (docs/cards.md).
pub const MARK: &[u8; 3] = b"SEA";

/// How many bytes a card's header has: mark, version and card number.
pub const HEADER_BYTES: usize = 13;

/// How many bytes a record's head has: kind, cell, edition and length.
pub const HEAD_BYTES: usize = 9;

/// The header of a card: the mark, the version and the card number, each with its highest byte first
/// (docs/cards.md).
pub fn make_header(version: u16, number: u64) -> [u8; HEADER_BYTES]
    ensures { result ≡ header_of version number }
{
    let mut header = [0; HEADER_BYTES];
    header[0..3].copy_from_slice(MARK);
    header[3..5].copy_from_slice(&version.to_be_bytes());
    header[5..13].copy_from_slice(&number.to_be_bytes());
    header
}

/// The head of a record: kind, cell, edition and the body's length, each with its highest byte first
/// (docs/cards.md).
///
/// It takes any values. Its kind is any byte, as `Kind` would ask more of a caller.
pub fn make_head(kind: u8, cell: u32, edition: u16, length: u16) -> [u8; HEAD_BYTES]
    ensures { result ≡ head kind cell edition length }
{
    let mut bytes = [kind; HEAD_BYTES];
    bytes[1..5].copy_from_slice(&cell.to_be_bytes());
    bytes[5..7].copy_from_slice(&edition.to_be_bytes());
    bytes[7..9].copy_from_slice(&length.to_be_bytes());
    bytes
}

/// The nonce of record n: the card number, which is the header's last eight bytes, and then n in eight bytes,
/// its highest first (docs/cards.md).
pub fn record_nonce(header: &[u8; HEADER_BYTES], n: u64) -> [u8; 16]
    ensures { result ≡ nonce header.now n }
{
    let mut bytes = [0; 16];
    let (_, number) = header.split_at(5);
    let (front, back) = bytes.split_at_mut(8);
    front.copy_from_slice(number);
    back.copy_from_slice(&n.to_be_bytes());
    bytes
}

/// The data under which a record is sealed: the card's header and then the record's head (docs/cards.md).
pub fn record_data(header: &[u8; HEADER_BYTES], head: &[u8; HEAD_BYTES]) -> [u8; 22]
    ensures { result ≡ header.now ++ head.now }
{
    let mut bytes = [0; 22];
    let (front, back) = bytes.split_at_mut(HEADER_BYTES);
    front.copy_from_slice(header);
    back.copy_from_slice(head);
    bytes
}
