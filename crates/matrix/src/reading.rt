// The bit matrix answers the questions of a network.
ghost use Rattle.matrix.specs.Bits.{net_in};
ghost use Rattle.matrix.specs.Kept.{matrix_sound};
ghost use Rattle.matrix.specs.Memory.{fixed_in};

use crate::matrix::BitMatrix;
use grades::Grade;
use networks::Network;
use networks::places::item;

// persons and grade are a line each, as in every kind that owns its grades.
// The meaning goes by numbers and lists, as its definitions do, so the parts are named.
impl<G: Grade + Drop> Network for BitMatrix<G> {
    type Grade = G;

    ghost meaning = { λ s. net_in s.square.n s.square.bits.items s.grades.items };

    ghost sound = { λ s. matrix_sound s.square.n s.square.bits.items s.grades.items s.square.few s.graded s.square.mirror s.square.apart };

    ghost fixed = { λ s. fixed_in s.square.n s.square.bits.items s.grades.items };

    fn persons(&self) -> usize {
        self.square.n
    }

    // A copy into no places counts.
    fn degree(&self, u: usize) -> usize {
        self.square.copy_row(u, &mut [])
    }

    fn neighbour(&self, u: usize, i: usize) -> Option<usize> {
        self.square.nth_in_row(u, i)
    }

    fn linked(&self, u: usize, v: usize) -> bool {
        self.square.bit(u, v)
    }

    fn grade(&self, u: usize) -> Option<G> {
        item(&self.grades, self.square.n, u)
    }

    fn copy_neighbours(&self, u: usize, places: &mut [u32]) -> usize {
        self.square.copy_row(u, places)
    }
}
