// Adjacency rows: a network whose persons each have a row of numbers, free behind its count.
#![tactic(auto)]

mod cells;
pub mod changing;
pub mod opening;
pub mod reading;
pub mod rows;
mod tidy;

pub use rows::{AdjacencyRows, RowsMemory};
