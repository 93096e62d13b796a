// The bit matrix and the memory that it owns.
ghost use Rattle.std.specs.Prelude.{◌≤◌, length};

use crate::square::Square;

// The grades and their fact stand in each kind that has them: a part of both would hold n once more, and a fact that it is the same.
#[derive(Drop)]
pub struct BitMatrix<G> {
    pub(crate) square: Square,
    pub(crate) grades: Vec<G>,
    ghost graded: { square.n ≤ length grades.items },
}

// Bits in n * ceil(n / 8) bytes, and n grades. As handed they keep no fact of a square, so they are not held as one.
#[derive(Drop)]
pub struct MatrixMemory<G> {
    pub bits: Vec<u8>,
    pub grades: Vec<G>,
}
