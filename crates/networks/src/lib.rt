// Credit networks: what they mean, the questions they answer, their changes and openings, and a degree cap over any of them.
#![tactic(auto)]

pub mod capped;
pub mod changing;
pub mod checks;
pub mod network;
pub mod opening;
pub mod places;

pub use capped::Capped;
pub use changing::Changing;
pub use network::Network;
pub use opening::Opening;
