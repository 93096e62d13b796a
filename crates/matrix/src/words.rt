// The set bits of a row, read by words of 64 bits.
ghost use Rattle.std.specs.Prelude.{◌≡◌, ℕ, ◌/◌, ◌%◌, ◌≤◌, length, slice_index};
ghost use Rattle.grades.specs.Places.{onto};
ghost use Rattle.matrix.specs.Bits.{bit_of};
ghost use Rattle.matrix.specs.Words.{set_bits};

// At most eight bytes as a word: its bit j is the bit j % 8 of the byte j / 8.
pub(crate) fn word(bytes: &[u8]) -> u64
    requires { length bytes.now ≤ 8 }
    ensures { (j : ℕ) → bit_of result j ≡ bit_of (slice_index bytes.now (j / 8)) (j % 8) }
{
    if let Some(eight) = bytes.first_chunk() {
        return u64::from_le_bytes(*eight);
    }
    let mut eight = [0; 8];
    eight[..bytes.len()].copy_from_slice(bytes);
    u64::from_le_bytes(eight)
}

// The places of the set bits of a word that begins at `from`; the answer is how many there are.
pub(crate) fn copy_set_bits(word: u64, from: usize, places: &mut [u32]) -> usize
    requires { from ≤ 4096 }
    ensures count { result ≡ length (set_bits 64 from word) }
    ensures copied { places.new ≡ onto (set_bits 64 from word) places.old }
{
    let count = word.count_ones() as usize;
    let shown = count.min(places.len());
    let mut left = word;
    for place in &mut places[..shown] {
        *place = (from + left.trailing_zeros() as usize) as u32;
        left &= left - 1;
    }
    count
}
