// Adjacency rows, what they keep, and the memory they are opened from.
ghost use Rattle.std.specs.Prelude.{◌≤◌, length};
ghost use Rattle.rows.specs.Rows.{Apart, Bothways};
ghost use Rattle.rows.specs.Tidy.{links};

use crate::tidy::TidyRows;

// The grades and their fact stand in each kind that has them: a part of both would hold n once more, and a fact that it is the same.
#[derive(Drop)]
pub struct AdjacencyRows<G> {
    pub(crate) rows: TidyRows,
    pub(crate) grades: Vec<G>,
    ghost graded: { rows.n ≤ length grades.items },
    ghost apart: { Apart (links rows) },
    ghost bothways: { Bothways (links rows) },
}

// As handed the memory keeps no fact of tidy rows, so it is not held as such.
#[derive(Drop)]
pub struct RowsMemory<G> {
    pub span: usize,
    pub counts: Vec<u16>,
    pub cells: Vec<u16>,
    pub grades: Vec<G>,
}
