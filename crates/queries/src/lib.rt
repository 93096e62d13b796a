// Queries for circles, and the form in which circles are listed.
#![tactic(auto)]

mod asking;
pub mod choice;
pub mod head;
pub mod query;

pub use choice::Choice;
pub use head::Head;
pub use query::{MOST_CIRCLES, MOST_LINKS, Query};
