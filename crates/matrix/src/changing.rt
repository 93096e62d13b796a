// The bit matrix takes changes; its ceiling never refuses one.
ghost use Rattle.std.specs.Prelude.{◌-◌, refl};

use crate::matrix::BitMatrix;
use faults::CallFault;
use grades::Grade;
use networks::Changing;
use networks::checks::{check_new_pair, check_regrade, check_unlink};

impl<G: Grade + Drop> Changing for BitMatrix<G> {
    ghost ceiling_of = { λ s. s.square.n - 1 };

    ghost settled = { λ _. refl };

    fn ceiling(&self) -> usize {
        self.square.n.saturating_sub(1)
    }

    fn link(&mut self, u: usize, v: usize) -> Result<(), CallFault> {
        check_new_pair(self, u, v)?;
        self.square.flip_pair(u, v);
        Ok(())
    }

    fn unlink(&mut self, u: usize, v: usize) -> Result<(), CallFault> {
        check_unlink(self, u, v)?;
        self.square.flip_pair(u, v);
        Ok(())
    }

    // A check and a write, as in every kind that owns its grades.
    fn regrade(&mut self, u: usize, grade: G) -> Result<(), CallFault> {
        check_regrade(self, u)?;
        self.grades[u] = grade;
        Ok(())
    }
}
