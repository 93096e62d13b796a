// A grade as bytes, the high byte first.
ghost use Rattle.std.specs.Prelude.{◌≡◌, ℕ, ◌<◌, ◌≤◌, true, List, length, is_some, Some, Option};
ghost use Rattle.std.specs.List.{AllByRecursion};
ghost use Rattle.grades.specs.Places.{Byte, onto};

use crate::grade::Grade;

pub trait Wire: Grade {
    // the bytes of a grade, and the grade of some bytes, if they are those of one
    ghost bytes_of: { Self → List ℕ };

    ghost grade_of: { List ℕ → Option Self };

    // its numbers are in the range of their types; so for every grade that a program holds
    ghost InRange: { Self → Type 0 };

    // A function of its own: Default says a fact of its value and not the value, so a law would have to tie the two.
    ghost nought: { Self };

    fn zero() -> Self
        ensures { result ≡ nought };

    // As many of its bytes as there are places; the places behind stay.
    fn write(&self, places: &mut [u8])
        ensures written { places.new ≡ onto (bytes_of self.now) places.old }
        ensures ranged { InRange self.now };

    fn read(bytes: &[u8]) -> Option<Self>
        ensures { result ≡ grade_of bytes.now };

    ghost narrow: { Self.WIDTH ≤ 16 };

    ghost sized: { (g : Self) → length (bytes_of g) ≡ Self.WIDTH };

    ghost whole: { (g : Self) → InRange g → AllByRecursion Byte (bytes_of g) };

    ghost back: { (g : Self) → InRange g → grade_of (bytes_of g) ≡ Some g };

    ghost forth: { (bytes : List ℕ) (g : Self) → AllByRecursion Byte bytes → grade_of bytes ≡ Some g → bytes_of g ≡ bytes };

    ghost ranged: { (bytes : List ℕ) (g : Self) → AllByRecursion Byte bytes → grade_of bytes ≡ Some g → InRange g };

    ghost known: { (bytes : List ℕ) → length bytes ≡ Self.WIDTH → is_some (grade_of bytes) ≡ true };
}
