// The bit matrix: a network with one bit for each ordered pair of persons.
#![tactic(auto)]

pub mod changing;
pub mod matrix;
pub mod opening;
pub mod reading;
mod square;
mod words;

pub use matrix::{BitMatrix, MatrixMemory};
