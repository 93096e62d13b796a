// Trials of the heap over ranked grades of both kinds, and over a kind with ties.
#![tactic(auto)]

#[cfg(test)]
mod tests;
