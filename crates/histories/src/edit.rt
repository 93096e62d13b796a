// The changes of a network for changing, as one value each.
#[derive(Clone, Copy, PartialEq, Eq, Debug)]
pub enum Edit<G> {
    Link(usize, usize),
    Unlink(usize, usize),
    Regrade(usize, G),
}
