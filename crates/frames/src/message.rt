// What requests and replies owe to be read from frames and written as frames.
ghost use Rattle.std.specs.Prelude.{◌≡◌, ℕ, ◌+◌, ◌-◌, ◌<◌, Bool, true, List, length, take, Some, Result, Option};
ghost use Rattle.std.specs.List.{AllByRecursion};
ghost use Rattle.grades.specs.Places.{Byte};
ghost use Rattle.frames.specs.declared.fault.FrameFault.{FrameFault};
ghost use Rattle.frames.specs.Lines.{held, padded};
ghost use Rattle.frames.specs.Frames.{kind_in, framed};
ghost use Rattle.frames.specs.Kinds.{KindRead};
ghost use Rattle.frames.specs.Refusals.{meant};

use crate::fault::FrameFault;
use crate::frame::Frame;

pub(crate) trait Message: Sized {
    type Kind: Copy + TryFrom<u8, Error = FrameFault>;

    // The number of a kind, whether a number is that of a kind, and how long frames of it are.
    ghost number: { Self.Kind → ℕ };

    ghost known: { ℕ → Bool };

    ghost long: { ℕ → ℕ };

    // The number of a message's kind.
    ghost kind_number: { Self → ℕ };

    // Kind and fields as bytes, and the message that stands in some bytes.
    ghost bytes: { Self → List ℕ };

    ghost meaning: { List ℕ → Option Self };

    // The fields are in the range of their types: so of every message that a program holds.
    ghost Fits: { Self → Type 0 };

    fn length(kind: Self::Kind) -> usize
        ensures { result ≡ long (number kind) };

    fn kind(&self) -> Self::Kind
        ensures { number result ≡ kind_number self.now };

    // The message in a frame of that kind, with the length of its kind.
    fn read(kind: Self::Kind, frame: &Frame) -> Result<Self, FrameFault>
        requires kind { kind_in (held frame.now) ≡ number kind }
        requires length { length (held frame.now) ≡ long (number kind) }
        ensures { result ≡ meant (meaning (held frame.now)) };

    // Kind and fields in front of 32 places.
    fn row(&self) -> [u8; 32]
        ensures bytes { result ≡ padded (bytes self.now) }
        ensures ranged { Fits self.now };

    // A kind is read from its number, and from no other.
    ghost kinds: { (b : ℕ) (r : Result Self.Kind FrameFault) → Self.Kind.try_from_gives b r → KindRead number known b r };

    ghost whole: { (m : Self) → Fits m → AllByRecursion Byte (bytes m) };

    ghost first: { (m : Self) → kind_in (bytes m) ≡ kind_number m };

    ghost some: { (m : Self) → 0 < length (bytes m) };

    ghost room: { (m : Self) → length (bytes m) < 32 };

    // With the check byte it is as long as its kind.
    ghost sized: { (m : Self) → length (bytes m) + 1 ≡ long (kind_number m) };

    ghost numbered: { (m : Self) → known (kind_number m) ≡ true };

    // What is written is read back, and what is read is what was written.
    ghost back: { (m : Self) → Fits m → meaning (framed (bytes m)) ≡ Some m };

    ghost ranged: { (bs : List ℕ) (m : Self) → AllByRecursion Byte bs → length bs ≡ long (kind_in bs) → meaning bs ≡ Some m → Fits m };

    ghost forth: { (bs : List ℕ) (m : Self) → AllByRecursion Byte bs → length bs ≡ long (kind_in bs) → meaning bs ≡ Some m → bytes m ≡ take (length bs - 1) bs };
}
