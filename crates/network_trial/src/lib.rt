// Trials of every kind of network and of grade: nothing but tests.
#![tactic(auto)]

#[cfg(test)]
mod tests;
