// Points: a signed number, the larger the stronger.
ghost use Rattle.std.specs.Prelude.{pos, FitsSigned, int_le};
ghost use Rattle.std.specs.Int.{w32};
ghost use Rattle.grades.specs.Encoding.{point_bytes, point_of};
ghost use Rattle.std.proofs.Common.{rules};

use crate::grade::Grade;
use crate::places::write_front;
use crate::wire::Wire;
use heap::Ordered;

#[derive(Clone, Copy, PartialEq, Eq, PartialOrd, Ord, Debug)]
pub struct Points(pub i32);

impl Ordered for Points {
    ghost at_most = { λ a b. int_le a.0 b.0 };

    ghost total = { Prim.search rules };

    ghost transitive = { Prim.search rules };

    fn at_most(&self, other: &Points) -> bool {
        self <= other
    }
}

impl Grade for Points {
    ghost WIDTH = { 4 };

    const WIDTH: usize = 4;
}

impl Wire for Points {
    ghost bytes_of = { point_bytes };

    ghost grade_of = { point_of };

    ghost InRange = { λ g. FitsSigned w32 g.0 };

    ghost nought = { record { 0 = pos 0 } };

    ghost narrow = { Prim.search rules };

    ghost sized = { Prim.search rules };

    ghost whole = { Prim.search rules };

    ghost back = { Prim.search rules };

    ghost forth = { Prim.search rules };

    ghost ranged = { Prim.search rules };

    ghost known = { Prim.search rules };

    fn zero() -> Points {
        Points(0)
    }

    fn write(&self, places: &mut [u8]) {
        write_front(&self.0.to_be_bytes(), places);
    }

    fn read(bytes: &[u8]) -> Option<Points> {
        let bytes = bytes.try_into().ok()?;
        Some(Points(i32::from_be_bytes(bytes)))
    }
}
