// The head of a listed circle: its weakest person, how many members it has, and where the first of them stands.
// The place is one in the row that members are written to: nothing is allocated for a circle.
#[derive(Clone, Copy, PartialEq, Eq, Debug)]
pub struct Head {
    pub weakest: u32,
    pub number: u32,
    pub place: u32,
}
