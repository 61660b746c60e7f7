ghost use Rattle.std.specs.Prelude.{◌≡◌, ℕ, ◌<◌, ◌≤◌, ◌++◌, length, take, drop, replicate, if◌then◌else◌, bit_xor, slice_index, slice_set};
ghost use Rattle.std.specs.Str.{bytes_eq};
ghost use Rattle.permutations.specs.Bytes.{xors};
ghost use Rattle.spoc.specs.Feed.{padded, put, zero_mask, mask_with, masks, control_place, run, pick};
ghost use Rattle.spoc.specs.Turns.{ended_if, control_byte, first_mask, at_message, plain_of, masks_of, opened_masks, output_of};
ghost use Rattle.spoc.specs.Suite.{start};

use crate::suite::Suite;
use std::marker::PhantomData;

// The control byte of a full block of data; a short block's is 0x10 more.
const DATA: u8 = 0x20;

// The same of a message.
const MESSAGE: u8 = 0x40;

// What the last mask of a feed has in its control byte beside the rest.
const LAST: u8 = 0x80;

// What follows a short block.
const PAD: u8 = 0x80;

/// Whether a message goes in and its ciphertext comes out, or the other way round (docs/cipher.md). An enum
/// and no closure: the contract of the loop says what comes out of each way, and matches on it.
#[derive(Clone, Copy)]
pub enum Way {
    /// A message goes in, and its ciphertext comes out.
    Seal,
    /// A ciphertext goes in, and its message comes out.
    Open,
}

// The control byte of a block, full or short, of which `last` says whether it is the last of the feed.
fn control_of(base: u8, block: &[u8], rate: usize, last: bool) -> u8
    requires { base < 128 }
    ensures { result ≡ control_byte rate base block.now last }
{
    let control = if block.len() < rate {
        base + 0x10
    } else {
        base
    };
    control ^ flag_of(last)
}

fn flag_of(last: bool) -> u8
    ensures { result ≡ (if last then 0x80 else 0) }
{
    if last { LAST } else { 0 }
}

// The state of a suite's cipher, which blocks go into. A block is a slice of at most RATE bytes, as six
// contracts ask: a type for it would be made at two calls and taken apart in all six. That a part is RATE
// bytes long is asked of unlike parts: a padded block, and a tag.
#[derive(Drop)]
pub(crate) struct Duplex<const B: usize, S> {
    pub(crate) state: [u8; B],
    pub(crate) suite: PhantomData<S>,
}

impl<const B: usize, S: Suite<B>> Duplex<B, S> {
    // A state of zeros, in which a cipher can begin.
    pub(crate) fn zeros() -> Self {
        Duplex {
            state: [0; B],
            suite: PhantomData,
        }
    }

    // Zeros where the state was.
    fn wipe(&mut self)
        ensures { self.new.state ≡ replicate B 0 }
    {
        self.state.fill(0);
    }

    pub(crate) fn forward(&mut self)
        ensures { self.new.state ≡ S.Bijection.meaning.forward self.old.state }
    {
        S::forward(&mut self.state);
    }

    // As many bytes as there are masked places, or fewer, xored into the first of these.
    fn mask_in(&mut self, bytes: &[u8])
        requires { length bytes.now ≤ S.SuiteModel.plan.rate }
        ensures { self.new.state ≡ xors self.old.state
            (put S.SuiteModel.plan.masked_places bytes.now (zero_mask S.Bijection.meaning)) }
    {
        for (place, byte) in S::masked_places().iter().zip(bytes) {
            self.state[*place] ^= *byte;
        }
    }

    // A short block and 0x80 after it, xored into the masked places. The zeros that follow would change
    // nothing: no padded copy is made. It is kept out of the loop's code, as xor_short.
    #[inline(never)]
    fn mask_short(&mut self, block: &[u8])
        requires { length block.now < S.SuiteModel.plan.rate }
        ensures { self.new.state ≡ xors self.old.state
            (put S.SuiteModel.plan.masked_places
            (padded S.SuiteModel.plan.rate block.now) (zero_mask S.Bijection.meaning)) }
    {
        self.mask_in(block);
        let place = S::masked_places()[block.len()];
        self.state[place] ^= PAD;
    }

    // A block, padded if it is short, xored into the masked places. All that a block goes through is inlined:
    // the compiler then knows in each loop whether the block is full, and which way it goes.
    #[inline(always)]
    fn mask_block(&mut self, block: &[u8])
        requires { length block.now ≤ S.SuiteModel.plan.rate }
        ensures { self.new.state ≡ xors self.old.state
            (put S.SuiteModel.plan.masked_places
            (padded S.SuiteModel.plan.rate block.now) (zero_mask S.Bijection.meaning)) }
    {
        if block.len() < S::RATE {
            self.mask_short(block);
        } else {
            // Of a part cut to RATE the compiler knows the length: without, bench is up to an eighth slower.
            self.mask_in(&block[..S::RATE]);
        }
    }

    // A byte xored into the first rate place.
    fn control_in(&mut self, control: u8)
        ensures { self.new.state ≡ slice_set self.old.state (control_place S.SuiteModel.plan)
            (bit_xor (slice_index self.old.state (control_place S.SuiteModel.plan)) control) }
    {
        let place = S::rate_places()[0];
        self.state[place] ^= control;
    }

    // A block's mask xored into the state.
    #[inline(always)]
    fn absorb(&mut self, block: &[u8], control: u8)
        requires { length block.now ≤ S.SuiteModel.plan.rate }
        ensures { self.new.state ≡ xors self.old.state
            (mask_with S.Bijection.meaning S.SuiteModel.plan control block.now) }
    {
        self.mask_block(block);
        self.control_in(control);
    }

    // A block's mask goes in, and forward follows.
    #[inline(always)]
    fn step(&mut self, block: &[u8], control: u8)
        requires { length block.now ≤ S.SuiteModel.plan.rate }
        ensures { self.new.state ≡ S.Bijection.meaning.forward (xors self.old.state
            (mask_with S.Bijection.meaning S.SuiteModel.plan control block.now)) }
    {
        self.absorb(block, control);
        self.forward();
    }

    // The zero mask goes in, and forward follows; `ends` says whether it is the only mask.
    fn first_step(&mut self, ends: bool)
        ensures { self.new.state ≡ S.Bijection.meaning.forward (xors self.old.state
            (first_mask S.Bijection.meaning S.SuiteModel.plan ends)) }
    {
        self.control_in(flag_of(ends));
        self.forward();
    }

    // Each block of the data goes in; `ends` says whether the last of them is the last of the feed. This and
    // `begin` are inlined, as what follows them is: of a state that is handed on by reference the compiler thinks
    // that the data may be part of it, and long data under bench took a quarter longer.
    #[inline(always)]
    fn absorb_data(&mut self, data: &[u8], ends: bool)
        ensures { self.new.state ≡ run S.Bijection.meaning self.old.state
            (ended_if ends S.SuiteModel.plan
            (masks S.Bijection.meaning S.SuiteModel.plan 0x20 «data».now)) }
    {
        for (i, block) in data.chunks(S::RATE).enumerate() {
            let last = i * S::RATE + block.len() == data.len();
            let control = control_of(DATA, block, S::RATE, ends & last);
            self.step(block, control);
        }
    }

    // The state before the message, or its ciphertext: key, nonce, the zero mask and the data are in.
    #[inline(always)]
    pub(crate) fn begin(&mut self, key: &[u8; 16], nonce: &[u8; 16], data: &[u8], message: &[u8])
        ensures { self.new.state ≡ at_message S.Bijection.meaning S.SuiteModel.plan
            (start S.Bijection.meaning S.SuiteModel.plan key.now nonce.now)
            «data».now message.now }
    {
        S::start(&mut self.state, key, nonce);
        self.first_step(data.is_empty() & message.is_empty());
        self.absorb_data(data, message.is_empty());
    }

    // A block xored with as many places. Written by index: what goes through an iter_mut in a zip is lost to
    // a proof.
    fn xor_places(&self, places: &[usize], block: &[u8], out: &mut [u8])
        requires inside { (i : ℕ) → i < length places.now → slice_index places.now i < B }
        requires all { length places.now ≡ length block.now }
        requires room { length out.old ≡ length block.now }
        ensures { out.new ≡ xors block.now (pick places.now self.now.state) }
    {
        for (i, place) in places.iter().enumerate() {
            out[i] = block[i] ^ self.state[*place];
        }
    }

    // A short block xored with the rate places: only the last can be, so it is kept out of the loop's code.
    #[inline(never)]
    fn xor_short(&self, block: &[u8], out: &mut [u8])
        requires fits { length block.now ≤ S.SuiteModel.plan.rate }
        requires room { length out.old ≡ length block.now }
        ensures { out.new ≡ xors block.now (pick S.SuiteModel.plan.rate_places self.now.state) }
    {
        self.xor_places(&S::rate_places()[..block.len()], block, out);
    }

    // A block xored with the rate places; of a full one the compiler knows the length.
    #[inline(always)]
    fn xor_rate(&self, block: &[u8], out: &mut [u8])
        requires fits { length block.now ≤ S.SuiteModel.plan.rate }
        requires room { length out.old ≡ length block.now }
        ensures { out.new ≡ xors block.now (pick S.SuiteModel.plan.rate_places self.now.state) }
    {
        let places = S::rate_places();
        if block.len() == places.len() {
            self.xor_places(places, block, out);
        } else {
            self.xor_short(block, out);
        }
    }

    // A block is turned into what comes out for it, and the mask of the message's block goes in.
    #[inline(always)]
    fn crypt_block(&mut self, way: Way, block: &[u8], out: &mut [u8], control: u8)
        requires fits { length block.now ≤ S.SuiteModel.plan.rate }
        requires room { length out.old ≡ length block.now }
        ensures out { out.new ≡ xors block.now (pick S.SuiteModel.plan.rate_places self.old.state) }
        ensures state { self.new.state ≡ S.Bijection.meaning.forward (xors self.old.state
            (mask_with S.Bijection.meaning S.SuiteModel.plan control
            (plain_of way block.now
            (xors block.now (pick S.SuiteModel.plan.rate_places self.old.state))))) }
    {
        self.xor_rate(block, out);
        match way {
            Way::Seal => self.step(block, control),
            Way::Open => self.step(out, control),
        }
    }

    // Each block of a message or a ciphertext goes that way, and what comes out for it to the front of `out`.
    #[inline(always)]
    pub(crate) fn crypt(&mut self, way: Way, input: &[u8], out: &mut [u8])
        requires { length input.now ≤ length out.old }
        ensures state { self.new.state ≡ run S.Bijection.meaning self.old.state
            (masks_of way S.Bijection.meaning S.SuiteModel.plan self.old.state input.now) }
        ensures out { out.new ≡
            output_of way S.Bijection.meaning S.SuiteModel.plan self.old.state input.now
            ++ drop (length input.now) out.old }
    {
        for (i, block) in input.chunks(S::RATE).enumerate() {
            // By its place: a proof forgets what is written through chunks_mut in a zip.
            let start = i * S::RATE;
            let end = start + block.len();
            let control = control_of(MESSAGE, block, S::RATE, end == input.len());
            self.crypt_block(way, block, &mut out[start..end], control);
        }
    }

    // Each block of a ciphertext is opened at the front of the scratch, one over the other: the state goes as
    // it does in crypt.
    #[inline(always)]
    pub(crate) fn open_over(&mut self, ciphertext: &[u8], scratch: &mut [u8; 16])
        ensures { self.new.state ≡ run S.Bijection.meaning self.old.state
            (opened_masks S.Bijection.meaning S.SuiteModel.plan self.old.state ciphertext.now) }
    {
        for (i, block) in ciphertext.chunks(S::RATE).enumerate() {
            let end = i * S::RATE + block.len();
            let control = control_of(MESSAGE, block, S::RATE, end == ciphertext.len());
            self.crypt_block(Way::Open, block, &mut scratch[..block.len()], control);
        }
    }

    // The masked places of the end state, written by index as in xor_places.
    fn write_tag(&self, tag: &mut [u8])
        requires { length tag.old ≡ S.SuiteModel.plan.rate }
        ensures { tag.new ≡ pick S.SuiteModel.plan.masked_places self.now.state }
    {
        for (i, place) in S::masked_places().iter().enumerate() {
            tag[i] = self.state[*place];
        }
    }

    // Whether the tag is that of the end state; every byte is compared, wherever the first difference is.
    fn tag_agrees(&self, tag: &[u8]) -> bool
        requires { length tag.now ≡ S.SuiteModel.plan.rate }
        ensures { result ≡ bytes_eq (pick S.SuiteModel.plan.masked_places self.now.state) tag.now }
    {
        let mut difference = 0u8;
        for (place, byte) in S::masked_places().iter().zip(tag) {
            difference |= self.state[*place] ^ *byte;
        }
        difference == 0
    }

    // The tag, and then zeros in the state. Each end is a call: were it inlined into seal, where the state is
    // a local that nobody reads again, the compiler would leave out the zeros. A call that did nothing else
    // would go too; this one writes the tag.
    #[inline(never)]
    pub(crate) fn finish(&mut self, tag: &mut [u8])
        requires { length tag.old ≡ S.SuiteModel.plan.rate }
        ensures tag { tag.new ≡ pick S.SuiteModel.plan.masked_places self.old.state }
        ensures wiped { self.new.state ≡ replicate B 0 }
    {
        self.write_tag(tag);
        self.wipe();
    }

    // Whether the tag is that of the end state, and then zeros in the state: a call as finish, which answers.
    #[inline(never)]
    pub(crate) fn verify(&mut self, tag: &[u8]) -> bool
        requires { length tag.now ≡ S.SuiteModel.plan.rate }
        ensures agrees { result ≡
            bytes_eq (pick S.SuiteModel.plan.masked_places self.old.state) tag.now }
        ensures wiped { self.new.state ≡ replicate B 0 }
    {
        let agrees = self.tag_agrees(tag);
        self.wipe();
        agrees
    }
}
