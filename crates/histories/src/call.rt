// The calls of a finder, each with the sizes of the memory that it is lent.
use queries::Query;

// Places for members are those of the row for core numbers too.
#[derive(Clone, Copy, PartialEq, Eq, Debug)]
pub struct Lent {
    pub scratch: usize,
    pub waiting: usize,
    pub heads: usize,
    pub places: usize,
}

#[derive(Clone, Copy, PartialEq, Eq, Debug)]
pub enum Call<E> {
    Change(E),
    Cores(Lent),
    Peel(Query, Lent),
    Plant(Lent),
    Pick(Query, Lent),
    Holder(Query, usize),
}
