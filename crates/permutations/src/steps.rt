ghost use Rattle.std.specs.Prelude.{◌≡◌, ◌*◌};
ghost use Rattle.permutations.specs.Light.{words, load_state, store_state};
ghost use Rattle.permutations.specs.Steps.{StateWords, step, unstep, steps, unsteps};

use crate::constants::StepConstants;
use crate::simeck::{Subblock, store_word, two_boxes, two_unboxes};
use crate::width::{StateBytes, Width};
use std::marker::Model;

/// The state in words: its four subblocks (docs/permutations.md).
#[derive(Drop)]
pub struct State<W: Width> {
    s0: Subblock<W>,
    s1: Subblock<W>,
    s2: Subblock<W>,
    s3: Subblock<W>,
}

impl<W: Width> Model for State<W> {
    ghost Value = { StateWords };

    ghost view = { λ s. record { s0 = s.s0; s1 = s.s1; s2 = s.s2; s3 = s.s3 } };
}

impl<W: Width> State<W> {
    // The words of a state's bytes.
    pub(crate) fn load<const B: usize>(state: &[u8; B]) -> Self
    where
        W: StateBytes<B>,
        ensures { result ≡ load_state W.BYTES state.now }
    {
        State {
            s0: Subblock::load(state, 0),
            s1: Subblock::load(state, 1),
            s2: Subblock::load(state, 2),
            s3: Subblock::load(state, 3),
        }
    }

    // The eight words, in order.
    fn words(self) -> [u32; 8]
        ensures { result ≡ words self }
    {
        let State { s0, s1, s2, s3 } = self;
        [
            s0.left, s0.right, s1.left, s1.right, s2.left, s2.right, s3.left, s3.right,
        ]
    }

    // The bytes of the words.
    pub(crate) fn store<const B: usize>(self, state: &mut [u8; B])
    where
        W: StateBytes<B>,
        ensures { state.new ≡ store_state W.BYTES self }
    {
        let bytes = &mut state[..];
        // By index: a proof forgets what is written through chunks_exact_mut.
        for (i, word) in self.words().iter().enumerate() {
            store_word::<W>(*word, &mut bytes[i * W::BYTES..(i + 1) * W::BYTES]);
        }
    }

    // One step, under its constants.
    pub(crate) fn step(self, k: StepConstants) -> Self
        ensures { result ≡ step (8 * W.BYTES) W.ROUNDS k self }
    {
        let (b1, b3) = two_boxes(self.s1, self.s3, k.rc0, k.rc1);
        let s1 = self.s2 ^ &b3 ^ &Subblock::ones_but(k.sc1);
        let s3 = self.s0 ^ &b1 ^ &Subblock::ones_but(k.sc0);
        State {
            s0: b1,
            s1,
            s2: b3,
            s3,
        }
    }

    // The same step undone.
    pub(crate) fn unstep(self, k: StepConstants) -> Self
        ensures { result ≡ unstep (8 * W.BYTES) W.ROUNDS k self }
    {
        let s0 = self.s3 ^ &self.s0 ^ &Subblock::ones_but(k.sc0);
        let s2 = self.s1 ^ &self.s2 ^ &Subblock::ones_but(k.sc1);
        let (s1, s3) = two_unboxes(self.s0, self.s2, k.rc0, k.rc1);
        State { s0, s1, s2, s3 }
    }

    // The steps with these constants, the first first.
    pub(crate) fn forward(self, constants: &[StepConstants]) -> Self
        ensures { result ≡ steps (8 * W.BYTES) W.ROUNDS constants.now self }
    {
        constants.iter().fold(self, |s, k| s.step(*k))
    }

    // The same steps undone, the last first.
    pub(crate) fn back(self, constants: &[StepConstants]) -> Self
        ensures { result ≡ unsteps (8 * W.BYTES) W.ROUNDS constants.now self }
    {
        constants.iter().rev().fold(self, |s, k| s.unstep(*k))
    }
}
