// Opening a bit matrix from memory, and handing the memory back.
ghost use Rattle.std.specs.Prelude.{◌≡◌, refl, [], ◌∷◌, length};
ghost use Rattle.matrix.specs.Memory.{refusal_for, fixed_in, Holding};

use crate::matrix::{BitMatrix, MatrixMemory};
use crate::square::{Square, are_bytes, stride};
use faults::CallFault;
use grades::Grade;
use networks::Opening;

// The memory's parts are named one by one: what is fixed is said of a matrix and of memory alike, and the rest of memory alone.
impl<G: Grade + Drop> Opening for BitMatrix<G> {
    type Memory = MatrixMemory<G>;

    ghost sizes = { λ m. length m.bits.items ∷ length m.grades.items ∷ [] };

    ghost refusal = { refusal_for };

    ghost found = { λ m. m.grades.items };

    ghost fixed_by = { λ n m. fixed_in n m.bits.items m.grades.items };

    ghost Holds = { λ net f m. Holding net f m.bits.items m.grades.items };

    ghost sized = { λ _ _. refl };

    ghost back = { λ _ _ _ h. h.sized };

    fn check(n: usize, memory: &MatrixMemory<G>) -> Result<(), CallFault> {
        // 4,096 as a sound network is defined; a constant would be one more name for it.
        if n > 4096 {
            return Err(CallFault::TooLarge);
        }
        if memory.bits.len() < n * stride(n) || memory.grades.len() < n {
            return Err(CallFault::ShortMemory);
        }
        Ok(())
    }

    fn open(n: usize, memory: MatrixMemory<G>) -> BitMatrix<G> {
        // nobody where the check refuses: a line in each kind
        let n = Self::check(n, &memory).map_or(0, |_| n);
        let MatrixMemory { bits, grades } = memory;
        BitMatrix {
            square: Square::cleared(n, bits),
            grades,
        }
    }

    fn close(self) -> MatrixMemory<G> {
        are_bytes(&self.square.bits);
        let BitMatrix { square, grades } = self;
        MatrixMemory {
            bits: square.bits,
            grades,
        }
    }
}
