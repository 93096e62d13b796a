// Grades of persons: what an order of grades owes, two kinds of grade, and a grade with its person.
#![tactic(auto)]

pub mod grade;
pub mod laurels;
pub mod places;
pub mod points;
pub mod ranked;
pub mod wire;

pub use grade::Grade;
pub use laurels::Laurels;
pub use points::Points;
pub use ranked::Ranked;
pub use wire::Wire;
