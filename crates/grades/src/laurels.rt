// Laurels: a class and a score, compared by class and then by score, the larger the stronger.
ghost use Rattle.std.specs.Prelude.{◌≡◌, ◌^◌, ◌<◌, ◌&&◌, ◌||◌, ◌∷◌, ◌==◌, nat_le, nat_lt};
ghost use Rattle.grades.specs.Encoding.{bytes32, laurel_bytes, laurel_of};
ghost use Rattle.std.proofs.Common.{rules};

use crate::grade::Grade;
use crate::places::write_front;
use crate::wire::Wire;
use heap::Ordered;

#[derive(Clone, Copy, PartialEq, Eq, PartialOrd, Ord, Debug)]
pub struct Laurels {
    pub class: u8,
    pub score: u32,
}

impl Ordered for Laurels {
    ghost at_most = { λ a b. nat_lt a.class b.class || (a.class == b.class && nat_le a.score b.score) };

    ghost total = { Prim.search rules };

    ghost transitive = { Prim.search rules };

    fn at_most(&self, other: &Laurels) -> bool {
        self <= other
    }
}

impl Grade for Laurels {
    ghost WIDTH = { 5 };

    const WIDTH: usize = 5;
}

impl Wire for Laurels {
    ghost bytes_of = { laurel_bytes };

    ghost grade_of = { laurel_of };

    ghost InRange = { λ g. (g.class < 256) × (g.score < 2 ^ 32) };

    ghost nought = { record { class = 0; score = 0 } };

    ghost narrow = { Prim.search rules };

    ghost sized = { Prim.search rules };

    ghost whole = { Prim.search rules };

    ghost back = { Prim.search rules };

    ghost forth = { Prim.search rules };

    ghost ranged = { Prim.search rules };

    ghost known = { Prim.search rules };

    fn zero() -> Laurels {
        Laurels { class: 0, score: 0 }
    }

    fn write(&self, places: &mut [u8]) {
        write_front(&joined(self.class, self.score), places);
    }

    fn read(bytes: &[u8]) -> Option<Laurels> {
        let [class, a, b, c, d]: [u8; 5] = bytes.try_into().ok()?;
        Some(Laurels {
            class,
            score: u32::from_be_bytes([a, b, c, d]),
        })
    }
}

// The class, then the score.
fn joined(class: u8, score: u32) -> [u8; 5]
    ensures bytes { result ≡ class ∷ bytes32 score }
    ensures ranged { (class < 256) × (score < 2 ^ 32) }
{
    let [a, b, c, d] = score.to_be_bytes();
    [class, a, b, c, d]
}
