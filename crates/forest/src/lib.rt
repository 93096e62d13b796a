// Rounds, holders and the tree of a network: the theorems that planting and picking rest on.
#![tactic(auto)]

pub mod examples;
pub mod holder_laws;
pub mod joining_laws;
pub mod round_laws;
pub mod tree_laws;
