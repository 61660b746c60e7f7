ghost use Rattle.std.specs.Prelude.{◌≡◌, ◌+◌, ◌*◌, ◌%◌, ◌^◌, ◌<◌, ◌≤◌, length, take, count_ones, sum_by, IfOk, ◌==◌, if◌then◌else◌};
ghost use Rattle.std.specs.List.{AllByRecursion};
ghost use Rattle.std.specs.Str.{IsAscii};
ghost use Rattle.permutations.specs.Bytes.{xors};
ghost use Rattle.permutations.specs.Page.{with_bit_flipped, count_for, field_of, sum_to, line_of, sum_line, page_of, page_bytes, page_answer, page_buffer, BenchPage};

use crate::fault::PageFault;
use crate::permutation::Permutation;

// The bytes of a line: eight counts of four columns, and a line feed.
const LINE: usize = 33;

// The last digit of what is left of a number, and a space where nothing is.
fn digit_of(rest: u32) -> u8
    ensures value { result ≡ (if rest == 0 then 32 else 48 + rest % 10) }
    ensures ascii { result < 128 }
{
    if rest == 0 {
        b' '
    } else {
        b'0' + (rest % 10) as u8
    }
}

// A number at the end of N columns, digit by digit from its last, which shows also where the number is 0.
fn right_aligned<const N: usize>(number: u32) -> [u8; N]
    requires some { 1 ≤ N }
    requires fits { number < 10 ^ N }
    ensures value { result ≡ field_of N number }
    ensures ascii { AllByRecursion (λ b. b < 128) result }
{
    let mut text = [b'0' + (number % 10) as u8; N];
    let mut rest = number / 10;
    for i in (0..N - 1).rev() {
        text[i] = digit_of(rest);
        rest /= 10;
    }
    text
}

// How many bits two outputs differ in.
fn differing_bits(a: &[u8], b: &[u8]) -> u32
    requires same { length a.now ≡ length b.now }
    requires most { length a.now ≤ 64 }
    ensures value { result ≡ sum_by count_ones (xors a.now b.now) }
    ensures bound { result ≤ 8 * length a.now }
{
    let mut ones = 0;
    for (i, x) in a.iter().enumerate() {
        ones += (*x ^ b[i]).count_ones();
    }
    ones
}

// A state with bit i flipped, bit 0 being the highest of the first byte.
fn with_bit_flipped<const B: usize>(state: &[u8; B], i: usize) -> [u8; B]
    requires { i < 8 * B }
    ensures { result ≡ with_bit_flipped i state.now }
{
    let mut other = *state;
    other[i / 8] ^= 0x80 >> (i % 8);
    other
}

// The count for input bit i. `after` is the output of the state as it is.
fn count_for<const B: usize, P: Permutation<B>>(
    state: &[u8; B],
    after: &[u8; B],
    s: usize,
    i: usize,
) -> u32
    requires steps { s ≤ P.Bijection.meaning.full }
    requires output { after.now ≡ P.Bijection.meaning.forward_by s state.now }
    requires bit { i < 8 * B }
    ensures value { result ≡ count_for P.Bijection.meaning s state.now i }
    ensures bound { result ≤ 512 }
{
    let mut other = with_bit_flipped(state, i);
    // There are so many steps, so no refusal can come.
    let _ = P::forward_by(&mut other, s);
    differing_bits(after, &other)
}

// A line, and the sum of its counts.
#[derive(Clone, Copy)]
struct Line {
    text: [u8; LINE],
    sum: u32,
}

// Line k: the counts for the bits of byte k.
fn line_of<const B: usize, P: Permutation<B>>(
    state: &[u8; B],
    after: &[u8; B],
    s: usize,
    k: usize,
) -> Line
    requires steps { s ≤ P.Bijection.meaning.full }
    requires output { after.now ≡ P.Bijection.meaning.forward_by s state.now }
    requires byte { k < B }
    ensures text { result.text ≡ line_of (count_for P.Bijection.meaning s state.now) k }
    ensures sum { result.sum ≡
        sum_to (λ j. count_for P.Bijection.meaning s state.now (8 * k + j)) 8 }
    ensures bound { result.sum ≤ 4096 }
    ensures ascii { AllByRecursion (λ b. b < 128) result.text }
{
    let mut text = [0; LINE];
    let mut sum = 0;
    for j in 0..8 {
        let count = count_for::<B, P>(state, after, s, 8 * k + j);
        text[4 * j..4 * (j + 1)].copy_from_slice(&right_aligned::<4>(count));
        sum += count;
    }
    text[LINE - 1] = b'\n';
    Line { text, sum }
}

// The last line.
fn sum_line(total: u32) -> [u8; LINE]
    ensures value { result ≡ sum_line total }
    ensures ascii { AllByRecursion (λ b. b < 128) result }
{
    let mut line = [b'\n'; LINE];
    line[..3].copy_from_slice(b"sum");
    line[3..LINE - 1].copy_from_slice(&right_aligned::<29>(total));
    line
}

// All lines, into as many bytes as they have. `after` is the output of the state as it is.
fn write_lines<const B: usize, P: Permutation<B>>(
    state: &[u8; B],
    after: &[u8; B],
    s: usize,
    page: &mut [u8],
)
    requires steps { s ≤ P.Bijection.meaning.full }
    requires output { after.now ≡ P.Bijection.meaning.forward_by s state.now }
    requires room { length page.old ≡ page_bytes P.Bijection.meaning }
    ensures value { page.new ≡ page_of P.Bijection.meaning s state.now }
    ensures ascii { AllByRecursion (λ b. b < 128) page.new }
{
    let mut total = 0;
    for k in 0..B {
        let line = line_of::<B, P>(state, after, s, k);
        page[LINE * k..LINE * (k + 1)].copy_from_slice(&line.text);
        total += line.sum;
    }
    page[LINE * B..].copy_from_slice(&sum_line(total));
}

/// Writes the diffusion page of a state after s steps to the front of `buffer`, and answers its length: 33
/// bytes for each byte of the state and 33 more, all ASCII. Line k has the counts for the bits of the state's
/// byte k, the highest bit first: how many output bits change when that bit of the state is flipped. The last
/// line has their sum.
///
/// The state is only read. Two questions are asked, in this order: 21, is s at most the full number; 4, is
/// the buffer as long as the page? After either the buffer stays as it was; what is beyond the page always
/// stays (docs/permutations.md).
///
/// Of bench, the page by one step has 2 for each of the first 64 bits, 1 for each other, and 320 in all.
pub fn diffusion_page<const B: usize, P: Permutation<B>>(
    state: &[u8; B],
    s: usize,
    buffer: &mut [u8],
) -> Result<usize, PageFault>
    ensures answer { result ≡ page_answer P.Bijection.meaning s (length buffer.old) }
    ensures buffer { buffer.new ≡ page_buffer P.Bijection.meaning s state.now buffer.old }
    ensures text { IfOk result (λ n. IsAscii (take n buffer.new)) }
    ensures bench { BenchPage }
{
    let mut after = *state;
    P::forward_by(&mut after, s)?;
    let length = LINE * (B + 1);
    if buffer.len() < length {
        return Err(PageFault::BufferShort);
    }
    write_lines::<B, P>(state, &after, s, &mut buffer[..length]);
    Ok(length)
}
