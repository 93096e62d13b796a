// A degree cap over any network for changing: all is the network's below, but the ceiling is the smaller of its own number and the one below.
ghost use Rattle.std.specs.Prelude.{◌≡◌, min, ◌∷◌, drop};
ghost use Rattle.networks.specs.Fixed.{Fixed, capped};
ghost use Rattle.std.proofs.Common.{rules};

use crate::changing::Changing;
use crate::checks::check_link;
use crate::network::Network;
use crate::opening::Opening;
use faults::CallFault;

#[derive(Drop)]
pub struct Capped<B> {
    pub below: B,
    pub limit: usize,
}

impl<N: Network> Network for Capped<N> {
    type Grade = N::Grade;

    ghost meaning = { λ s. N.Network.meaning s.below };

    ghost sound = { λ s. N.Network.sound s.below };

    ghost fixed = { λ s. capped s.limit (N.Network.fixed s.below) };

    fn persons(&self) -> usize {
        self.below.persons()
    }

    fn degree(&self, u: usize) -> usize {
        self.below.degree(u)
    }

    fn neighbour(&self, u: usize, i: usize) -> Option<usize> {
        self.below.neighbour(u, i)
    }

    fn linked(&self, u: usize, v: usize) -> bool {
        self.below.linked(u, v)
    }

    fn grade(&self, u: usize) -> Option<N::Grade> {
        self.below.grade(u)
    }

    fn copy_neighbours(&self, u: usize, places: &mut [u32]) -> usize {
        self.below.copy_neighbours(u, places)
    }
}

impl<N: Changing> Changing for Capped<N> {
    ghost ceiling_of = { λ s. min s.limit (N.Changing.ceiling_of s.below) };

    ghost settled = { Prim.search rules };

    fn ceiling(&self) -> usize {
        self.limit.min(self.below.ceiling())
    }

    fn link(&mut self, u: usize, v: usize) -> Result<(), CallFault> {
        check_link(&self.below, u, v, self.limit)?;
        self.below.link(u, v)
    }

    fn unlink(&mut self, u: usize, v: usize) -> Result<(), CallFault> {
        self.below.unlink(u, v)
    }

    fn regrade(&mut self, u: usize, grade: N::Grade) -> Result<(), CallFault> {
        self.below.regrade(u, grade)
    }
}

impl<N: Opening> Opening for Capped<N> {
    type Memory = Capped<N::Memory>;

    ghost sizes = { λ m. m.limit ∷ N.Opening.sizes m.below };

    ghost refusal = { λ n xs. N.Opening.refusal n (drop 1 xs) };

    ghost found = { λ m. N.Opening.found m.below };

    ghost fixed_by = { λ n m. capped m.limit (N.Opening.fixed_by n m.below) };

    ghost Holds = { λ net f m. (g : Fixed (N.Grade)) × (f ≡ capped m.limit g) × N.Opening.Holds net g m.below };

    ghost sized = { Prim.search rules };

    ghost back = { Prim.search rules };

    fn check(n: usize, memory: &Capped<N::Memory>) -> Result<(), CallFault> {
        N::check(n, &memory.below)
    }

    fn open(n: usize, memory: Capped<N::Memory>) -> Capped<N> {
        Capped {
            below: N::open(n, memory.below),
            limit: memory.limit,
        }
    }

    fn close(self) -> Capped<N::Memory> {
        Capped {
            below: self.below.close(),
            limit: self.limit,
        }
    }
}
