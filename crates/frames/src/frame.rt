// A frame: its bytes in front, and how many there are.
ghost use Rattle.std.specs.Prelude.{◌≡◌, ◌+◌, ◌%◌, ◌^◌, ◌<◌, ◌≤◌, ℕ, List, length, map, slice_index, true};
ghost use Rattle.std.specs.List.{range_with_len};
ghost use Rattle.frames.specs.Lines.{held, padded, frame_of, granted};
ghost use Rattle.frames.specs.Frames.{total, check_of, word_at, long_at, framed, frame_fault};

use crate::fault::FrameFault;
use std::array;

// By value, so that nothing is allocated.
#[derive(Clone, Copy, PartialEq, Eq, Debug)]
pub struct Frame {
    pub bytes: [u8; 32],
    pub len: usize,
}

impl Frame {
    pub(crate) const BLANK: Frame = Frame {
        bytes: [0; 32],
        len: 0,
    };

    pub(crate) fn contents(&self) -> &[u8]
        ensures { result.now ≡ held self.now }
    {
        &self.bytes[..self.len.min(32)]
    }

    // 0 past the end, as the definitions read bytes; no kind has that number.
    pub(crate) fn byte_at(&self, i: usize) -> u8
        ensures { result ≡ slice_index (held self.now) i }
    {
        self.contents().get(i).copied().unwrap_or(0)
    }

    fn bytes_at<const N: usize>(&self, i: usize) -> [u8; N]
        requires { i + N < 2 ^ 64 }
        ensures { result ≡ map (λ k. slice_index (held self.now) (i + k)) (range_with_len 0 N) }
    {
        array::from_fn(|k| self.byte_at(i + k))
    }

    pub(crate) fn word_at(&self, i: u8) -> u16
        ensures { result ≡ word_at (held self.now) i }
    {
        u16::from_be_bytes(self.bytes_at(usize::from(i)))
    }

    pub(crate) fn long_at(&self, i: u8) -> u32
        ensures { result ≡ long_at (held self.now) i }
    {
        u32::from_be_bytes(self.bytes_at(usize::from(i)))
    }

    // Of a known kind of that length, its first refusal.
    pub(crate) fn check(&self, length: usize) -> Result<(), FrameFault>
        ensures { result ≡ granted (frame_fault true length (held self.now)) }
    {
        let bytes = self.contents();
        if bytes.len() != length {
            return Err(FrameFault::WrongLength);
        }
        if sum(bytes) != 0 {
            return Err(FrameFault::WrongCheck);
        }
        Ok(())
    }

    // Puts the check byte into the last place.
    pub(crate) fn sealed(mut self) -> Frame
        requires some { 0 < self.len }
        requires room { self.len ≤ 32 }
        ensures { (xs : List ℕ) → length xs + 1 ≡ self.len → self.bytes ≡ padded xs → result ≡ frame_of (framed xs) }
    {
        let last = self.len - 1;
        self.bytes[last] = check_byte(&self.bytes[..last]);
        self
    }
}

// The sum of all bytes, but for multiples of 256.
fn sum(bytes: &[u8]) -> u8
    ensures { result ≡ total bytes.now % 256 }
{
    bytes.iter().fold(0u8, |sum, b| sum.wrapping_add(*b))
}

// The byte that these lack for their sum to be a multiple of 256. Said by a difference, whose value is known outright.
fn check_byte(bytes: &[u8]) -> u8
    ensures { result ≡ check_of bytes.now }
{
    0u8.wrapping_sub(sum(bytes))
}
