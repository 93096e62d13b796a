// A min-heap over a lent slice, for every element kind with a total order.
#![tactic(auto)]

pub mod calls;
pub mod ordered;
mod sift;
pub mod sorts;

pub use calls::{empty, least, put, take};
pub use ordered::Ordered;
pub use sorts::sort;
