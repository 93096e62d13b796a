// Adjacency rows as a network for reading.
ghost use Rattle.rows.specs.Memory.{fixed_in};
ghost use Rattle.rows.specs.Sound.{rows_sound};
ghost use Rattle.rows.specs.Tidy.{frame, net_of};

use crate::cells::{copy, stands};
use crate::rows::AdjacencyRows;
use grades::Grade;
use networks::Network;
use networks::places::item;

// persons and grade are a line each, as in every kind that owns its grades.
impl<G: Grade + Drop> Network for AdjacencyRows<G> {
    type Grade = G;

    ghost meaning = { λ s. net_of s.rows s.grades.items };

    ghost sound = { λ s. rows_sound s.rows.n s.rows.span s.rows.counts.items s.rows.cells.items s.grades.items s.rows.few s.graded s.apart s.bothways };

    ghost fixed = { λ s. fixed_in (frame s.rows) s.grades.items };

    fn persons(&self) -> usize {
        self.rows.n
    }

    fn degree(&self, u: usize) -> usize {
        self.rows.row(u).len()
    }

    fn neighbour(&self, u: usize, i: usize) -> Option<usize> {
        self.rows.row(u).get(i).map(|x| usize::from(*x))
    }

    fn linked(&self, u: usize, v: usize) -> bool {
        stands(self.rows.row(u), v)
    }

    fn grade(&self, u: usize) -> Option<G> {
        item(&self.grades, self.rows.n, u)
    }

    fn copy_neighbours(&self, u: usize, places: &mut [u32]) -> usize {
        let row = self.rows.row(u);
        copy(row, places);
        row.len()
    }
}
