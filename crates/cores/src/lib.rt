// Core numbers, and the cascade that finds them, over any network for reading.
#![tactic(auto)]

mod falling;
pub mod lanes;
pub mod numbers;

pub use lanes::Cascade;
pub use numbers::cores;
