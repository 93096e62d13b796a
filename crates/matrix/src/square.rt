// A square of bits, one for each ordered pair of n persons: one bit, one row, and a pair turned over.
ghost use Rattle.std.specs.Prelude.{◌≡◌, ℕ, ◌*◌, ◌<◌, ◌≤◌, false, length, slice_index};
ghost use Rattle.grades.specs.Places.{onto};
ghost use Rattle.matrix.specs.Bits.{stride, place, row_of, bit_at, near_in, spare_at, pair_flipped};
ghost use Rattle.networks.specs.Places.{filled};
ghost use Rattle.std.specs.List.{slice_get};

use crate::words::{copy_set_bits, word};
use networks::places::fill_front;

// n is not the length of anything: there may be more bits than n persons need, and those stay.
#[derive(Drop)]
pub(crate) struct Square {
    pub(crate) n: usize,
    pub(crate) bits: Vec<u8>,
    // 4,096 as a sound network is defined
    ghost few: { n ≤ 4096 },
    ghost room: { n * stride n ≤ length bits.items },
    ghost mirror: { (u v : ℕ) → bit_at n bits.items u v ≡ bit_at n bits.items v u },
    ghost apart: { (u : ℕ) → bit_at n bits.items u u ≡ false },
    ghost spare: { (u v : ℕ) → spare_at n bits.items u v ≡ false },
}

// The bytes of a row.
pub(crate) fn stride(n: usize) -> usize
    ensures { result ≡ stride n }
{
    n.div_ceil(8)
}

impl Square {
    // No bit of n persons is set, and the bytes behind theirs stay.
    pub(crate) fn cleared(n: usize, mut bits: Vec<u8>) -> Square
        requires few { n ≤ 4096 }
        requires room { n * stride n ≤ length bits.items }
        ensures persons { result.n ≡ n }
        ensures bits { result.bits.items ≡ filled (n * stride n) 0 bits.items }
    {
        fill_front(&mut bits, n * stride(n), 0);
        Square { n, bits }
    }

    // The byte of a pair.
    fn place(&self, u: usize, v: usize) -> usize
        requires { (u < self.now.n) × (v < self.now.n) }
        ensures value { result ≡ place self.now.n u v }
        ensures within { result < length self.now.bits.items }
    {
        u * stride(self.n) + v / 8
    }

    pub(crate) fn bit(&self, u: usize, v: usize) -> bool
        ensures { result ≡ bit_at self.now.n self.now.bits.items u v }
    {
        if u >= self.n || v >= self.n {
            return false;
        }
        (self.bits[self.place(u, v)] >> (v % 8)) & 1 == 1
    }

    fn row(&self, u: usize) -> &[u8]
        ensures { result.now ≡ row_of self.now.n self.now.bits.items u }
    {
        if u >= self.n {
            return &[];
        }
        let width = stride(self.n);
        &self.bits[u * width..u * width + width]
    }

    // The persons in u's row, as many as there are places; the answer is how many there are.
    #[tactic(auto, using(crate::proofs::Strips::few_strips, crate::proofs::Strips::row_whole, crate::proofs::Digits::bits_few, networks::proofs::Rising::kept_few))]
    pub(crate) fn copy_row(&self, u: usize, places: &mut [u32]) -> usize
        ensures count { result ≡ length (near_in self.now.n self.now.bits.items u) }
        ensures copied { places.new ≡ onto (near_in self.now.n self.now.bits.items u) places.old }
    {
        let mut count = 0;
        for (i, bytes) in self.row(u).chunks(8).enumerate() {
            let at = count.min(places.len());
            count += copy_set_bits(word(bytes), 64 * i, &mut places[at..]);
        }
        count
    }

    // The i-th person in u's row.
    pub(crate) fn nth_in_row(&self, u: usize, i: usize) -> Option<usize>
        ensures { result ≡ slice_get (near_in self.now.n self.now.bits.items u) i }
    {
        (0..self.n).filter(|v| self.bit(u, *v)).nth(i)
    }

    // Both bits of a pair.
    pub(crate) fn flip_pair(&mut self, u: usize, v: usize)
        requires persons { (u < self.old.n) × (v < self.old.n) }
        requires two { u ≡ v → ⊥ }
        ensures persons { self.new.n ≡ self.old.n }
        ensures bits { self.new.bits.items ≡ pair_flipped self.old.n self.old.bits.items u v }
    {
        let here = self.place(u, v);
        let there = self.place(v, u);
        self.bits[here] ^= 1 << (v % 8);
        self.bits[there] ^= 1 << (u % 8);
    }
}

// A slice of bytes holds bytes: for the proof of what the memory holds.
pub(crate) fn are_bytes(bits: &[u8])
    ensures { (i : ℕ) → slice_index bits.now i < 256 }
{
    let _ = bits.first();
}
