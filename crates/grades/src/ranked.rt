// A grade with the number of its person: of level grades the smaller number is the weaker.
ghost use Rattle.std.specs.Prelude.{◌≡◌, true, not, ◌&&◌, ◌||◌};
ghost use Rattle.grades.specs.Weaker.{rank_at_most};
ghost use Rattle.std.proofs.Common.{rules};

use crate::grade::Grade;
use heap::Ordered;

#[derive(Clone, Copy, PartialEq, Eq, Debug)]
pub struct Ranked<G> {
    pub grade: G,
    pub person: u32,
}

impl<G: Grade> Ordered for Ranked<G> {
    ghost at_most = { λ x y. rank_at_most G.at_most x.grade x.person y.grade y.person };

    ghost total = { Prim.search rules };

    ghost transitive = { Prim.search rules };

    fn at_most(&self, other: &Ranked<G>) -> bool {
        self.grade.at_most(&other.grade)
            && (!other.grade.at_most(&self.grade) || self.person <= other.person)
    }
}

// Whether each is at most the other: so only for one person. Of the order, and not of ==, which compares the grades' parts.
pub fn tied<G: Grade>(x: &Ranked<G>, y: &Ranked<G>) -> bool
    ensures value { result ≡ (rank_at_most G.at_most x.now.grade x.now.person y.now.grade y.now.person && rank_at_most G.at_most y.now.grade y.now.person x.now.grade x.now.person) }
    ensures apart { result ≡ true → x.now.person ≡ y.now.person }
{
    x.at_most(y) && y.at_most(x)
}
