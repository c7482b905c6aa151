// Bits in bytes, the highest bit of a byte first.
#![tactic(auto)]

ghost use Rattle.std.specs.Prelude.{◌≡◌, ℕ, ◌*◌, ◌<◌, Bool, List, [], ◌∷◌, ◌++◌, length, is_ok, nat_le, nat_lt};
ghost use Rattle.bits.specs.Bits.{Packs, Written, bit_at, marked};

// The bit at place `i`; `false` past the end.
pub fn bit(bytes: &[u8], i: usize) -> bool
    ensures value { result ≡ bit_at bytes.now i }
    ensures packed_bits_are_read { Packs }
{
    bytes
        .get(i / 8)
        .is_some_and(|byte| (byte >> (7 - i % 8)) & 1 == 1)
}

// Whether there are `n` bits.
pub fn holds(bytes: &[u8], n: usize) -> bool
    ensures { result ≡ nat_le n (8 * length bytes.now) }
{
    n.div_ceil(8) <= bytes.len()
}

// The buffer ends before the place.
#[derive(Clone, Copy, PartialEq, Eq, Debug)]
pub struct PastEnd;

// Writes the bit at place `i` of a string that is written bit by bit from place 0 on: the first bit of a byte clears the byte. Nothing is written past the end.
pub fn put(out: &mut [u8], i: usize, b: bool) -> Result<(), PastEnd>
    ensures answer { is_ok result ≡ nat_lt i (8 * length out.old) }
    ensures bytes { out.new ≡ marked out.old i b }
    ensures packs { (ts : List Bool) (old : List ℕ) → length ts ≡ i → i < 8 * length old → Written ts old out.old → Written (ts ++ b ∷ []) old out.new }
{
    let k = i / 8;
    if k >= out.len() {
        return Err(PastEnd);
    }
    // By index: of `get_mut` it is not known what the slice ends as.
    let before = if i % 8 == 0 { 0 } else { out[k] };
    out[k] = if b {
        before | (1 << (7 - i % 8))
    } else {
        before
    };
    Ok(())
}
