// Lists of calls and their answers: which answers are right, whatever network, tree and finder give them.
#![tactic(auto)]

pub mod call;
pub mod edit;

pub use call::{Call, Lent};
pub use edit::Edit;
