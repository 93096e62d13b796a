// Adjacency rows opened from memory, and the memory handed back.
ghost use Rattle.rows.specs.Memory.{sizes_of, refusal_by, fixed_in, HoldsNet};
ghost use Rattle.rows.specs.Rows.{frame_in};
ghost use Rattle.std.proofs.Common.{refl};

use crate::rows::{AdjacencyRows, RowsMemory};
use crate::tidy::TidyRows;
use faults::CallFault;
use grades::Grade;
use networks::Opening;

// The memory's parts are named one by one: what is fixed is said of rows and of memory alike, and the rest of memory alone.
impl<G: Grade + Drop> Opening for AdjacencyRows<G> {
    type Memory = RowsMemory<G>;

    ghost sizes = { λ m. sizes_of m.span m.counts.items m.cells.items m.grades.items };

    ghost refusal = { refusal_by };

    ghost found = { λ m. m.grades.items };

    ghost fixed_by = { λ n m. fixed_in (frame_in n m.span m.counts.items m.cells.items) m.grades.items };

    ghost Holds = { λ net f m. HoldsNet net f m.span m.counts.items m.cells.items m.grades.items };

    ghost sized = { λ n m. refl };

    ghost back = { λ net f m h. h.sizes };

    // Too many persons or too long rows come first, then a memory that is short.
    fn check(n: usize, memory: &RowsMemory<G>) -> Result<(), CallFault> {
        let span = memory.span;
        // 4,096 as a sound network is defined, and 4,095 as the links of one among so many; a constant would be one more name for each.
        if n > 4096 || span > 4095 {
            return Err(CallFault::TooLarge);
        }
        if memory.counts.len() < n || memory.cells.len() < n * span || memory.grades.len() < n {
            return Err(CallFault::ShortMemory);
        }
        Ok(())
    }

    fn open(n: usize, memory: RowsMemory<G>) -> AdjacencyRows<G> {
        // nobody where the check refuses: a line in each kind
        let persons = Self::check(n, &memory).map_or(0, |()| n);
        AdjacencyRows {
            rows: TidyRows::cleared(persons, memory.span, memory.counts, memory.cells),
            grades: memory.grades,
        }
    }

    fn close(self) -> RowsMemory<G> {
        let AdjacencyRows { rows, grades } = self;
        RowsMemory {
            span: rows.span,
            counts: rows.counts,
            cells: rows.cells,
            grades,
        }
    }
}
