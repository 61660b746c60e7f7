ghost use Rattle.std.specs.Prelude.{◌≡◌, ◌+◌, ◌*◌, ◌^◌, ◌<◌, length, slice_index};
ghost use Rattle.permutations.specs.Bytes.{load, store, loads};
ghost use Rattle.permutations.specs.Simeck.{SubblockWords, block, gamma, round, unround, box, unbox, Fit};
ghost use Rattle.permutations.specs.Steps.{xored, ones_but};

use crate::width::{StateBytes, Width};
use std::marker::{Model, PhantomData};
use std::ops::BitXor;

/// A subblock of the state: two words, which keep to the width (docs/permutations.md).
///
/// It is no `Copy`: a proof takes one that is used again for moved.
#[derive(Drop)]
pub struct Subblock<W: Width> {
    pub(crate) left: u32,
    pub(crate) right: u32,
    width: PhantomData<W>,
}

impl<W: Width> Model for Subblock<W> {
    ghost Value = { SubblockWords };

    ghost view = { λ b. block b.left b.right };

    ghost invariant = { λ b. Fit (8 * W.BYTES) (block b.left b.right) };
}

// The number that a word's bytes stand for, the highest first.
fn load_word<W: Width>(part: &[u8]) -> u32
    requires { length part.now ≡ W.BYTES }
    ensures value { result ≡ load part.now }
    ensures fits { result < 2 ^ (8 * W.BYTES) }
{
    let mut bytes = [0; 4];
    bytes[4 - W::BYTES..].copy_from_slice(part);
    u32::from_be_bytes(bytes)
}

// The bytes of a word, the highest first.
pub(crate) fn store_word<W: Width>(x: u32, part: &mut [u8])
    requires { length part.old ≡ W.BYTES }
    ensures { part.new ≡ store W.BYTES x }
{
    part.copy_from_slice(&x.to_be_bytes()[4 - W::BYTES..]);
}

// Word i of a state.
fn word_at<const B: usize, W: StateBytes<B>>(state: &[u8; B], i: usize) -> u32
    requires { i < 8 }
    ensures value { result ≡ slice_index (loads W.BYTES 8 state.now) i }
    ensures fits { result < 2 ^ (8 * W.BYTES) }
{
    let bytes = &state[..];
    load_word::<W>(&bytes[i * W::BYTES..(i + 1) * W::BYTES])
}

// What round k xors in: all ones but for the lowest bit, which is bit k of the round constant.
// That k is below 8 stays a clause, here and in a round: a type for it would be longer.
fn round_word<W: Width>(rc: u8, k: u32) -> u32
    requires { k < 8 }
    ensures { result ≡ gamma (8 * W.BYTES) rc k }
{
    W::ONES - 1 + ((rc >> k) & 1) as u32
}

impl<W: Width> Subblock<W> {
    // Subblock i of a state.
    pub(crate) fn load<const B: usize>(state: &[u8; B], i: usize) -> Self
    where
        W: StateBytes<B>,
        requires { i < 4 }
        ensures { result ≡ block (slice_index (loads W.BYTES 8 state.now) (2 * i))
            (slice_index (loads W.BYTES 8 state.now) (2 * i + 1)) }
    {
        Subblock {
            left: word_at::<B, W>(state, 2 * i),
            right: word_at::<B, W>(state, 2 * i + 1),
            width: PhantomData,
        }
    }

    // All ones but for the last byte.
    pub(crate) fn ones_but(last: u8) -> Self
        ensures { result ≡ ones_but (8 * W.BYTES) last }
    {
        Subblock {
            left: W::ONES,
            right: W::ONES - 255 + last as u32,
            width: PhantomData,
        }
    }

    fn swapped(self) -> Self
        ensures { result ≡ block self.right self.left }
    {
        Subblock {
            left: self.right,
            right: self.left,
            width: PhantomData,
        }
    }

    // Round k of the box under rc: the new word goes left, and the old left word right.
    fn round(self, rc: u8, k: u32) -> Self
        requires { k < 8 }
        ensures { result ≡ round (8 * W.BYTES) (gamma (8 * W.BYTES) rc k) self }
    {
        let x = self.left;
        Subblock {
            left: (W::turn(x, 5) & x) ^ W::turn(x, 1) ^ self.right ^ round_word::<W>(rc, k),
            right: x,
            width: PhantomData,
        }
    }

    // The same round undone: a round with the words exchanged.
    fn unround(self, rc: u8, k: u32) -> Self
        requires { k < 8 }
        ensures { result ≡ unround (8 * W.BYTES) (gamma (8 * W.BYTES) rc k) self }
    {
        self.swapped().round(rc, k).swapped()
    }
}

impl<'a, W: Width> BitXor<&'a Subblock<W>> for Subblock<W> {
    type Output = Subblock<W>;

    ghost bitxor_gives = { λ a b r. r ≡ xored a b.now };

    fn bitxor(self, other: &'a Subblock<W>) -> Subblock<W> {
        Subblock {
            left: self.left ^ other.left,
            right: self.right ^ other.right,
            width: PhantomData,
        }
    }
}

// The boxes of a and b under rc0 and rc1, round by round side by side, so that neither waits for the other.
pub(crate) fn two_boxes<W: Width>(
    a: Subblock<W>,
    b: Subblock<W>,
    rc0: u8,
    rc1: u8,
) -> (Subblock<W>, Subblock<W>)
    ensures first { result.0 ≡ box (8 * W.BYTES) rc0 W.ROUNDS a }
    ensures second { result.1 ≡ box (8 * W.BYTES) rc1 W.ROUNDS b }
{
    let mut x = a;
    let mut y = b;
    for k in 0..W::ROUNDS {
        x = x.round(rc0, k);
        y = y.round(rc1, k);
    }
    (x, y)
}

// The inverses of the boxes, side by side: the rounds undone, the last first.
// A loop of its own: with round and order as parameters it would be longer.
pub(crate) fn two_unboxes<W: Width>(
    a: Subblock<W>,
    b: Subblock<W>,
    rc0: u8,
    rc1: u8,
) -> (Subblock<W>, Subblock<W>)
    ensures first { result.0 ≡ unbox (8 * W.BYTES) rc0 W.ROUNDS a }
    ensures second { result.1 ≡ unbox (8 * W.BYTES) rc1 W.ROUNDS b }
{
    let mut x = a;
    let mut y = b;
    for k in (0..W::ROUNDS).rev() {
        x = x.unround(rc0, k);
        y = y.unround(rc1, k);
    }
    (x, y)
}
