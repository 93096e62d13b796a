// The theory of circles: what they are, and the theorems that a finder of them rests on.
#![tactic(auto)]

pub mod circle_laws;
pub mod core_laws;
pub mod examples;
pub mod listing_laws;
pub mod loop_laws;
pub mod peeling_laws;
