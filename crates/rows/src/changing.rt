// Adjacency rows as a network for changing: the ceiling is the span.
ghost use Rattle.std.proofs.Common.{refl};

use crate::rows::AdjacencyRows;
use faults::CallFault;
use grades::Grade;
use networks::Changing;
use networks::checks::{check_link, check_regrade, check_unlink};

impl<G: Grade + Drop> Changing for AdjacencyRows<G> {
    ghost ceiling_of = { λ s. s.rows.span };

    ghost settled = { λ s. refl };

    fn ceiling(&self) -> usize {
        self.rows.span
    }

    fn link(&mut self, u: usize, v: usize) -> Result<(), CallFault> {
        check_link(self, u, v, self.rows.span)?;
        self.rows.join(u, v);
        Ok(())
    }

    fn unlink(&mut self, u: usize, v: usize) -> Result<(), CallFault> {
        check_unlink(self, u, v)?;
        self.rows.sever(u, v);
        Ok(())
    }

    // A check and a write, as in every kind that owns its grades.
    fn regrade(&mut self, u: usize, grade: G) -> Result<(), CallFault> {
        check_regrade(self, u)?;
        self.grades[u] = grade;
        Ok(())
    }
}
