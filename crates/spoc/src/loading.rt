ghost use Rattle.std.specs.Prelude.{◌≡◌, ◌+◌, ◌≤◌, ◌++◌, length, take};

// Writes a part of a key or a nonce into a state. A state is loaded from its first byte to its last, so the
// clause says what stands before the part's end. Byte by byte, so that no number holds a part of the key.
#[inline(always)]
pub(crate) fn load_part<const B: usize>(state: &mut [u8; B], place: usize, part: &[u8])
    requires { place + length part.now ≤ B }
    ensures { take (place + length part.now) state.new ≡ take place state.old ++ part.now }
{
    let bytes = &mut state[..];
    bytes[place..place + part.len()].copy_from_slice(part);
}
