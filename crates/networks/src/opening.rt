// Opening a network from memory, and handing the memory back.
ghost use Rattle.std.specs.Prelude.{◌≡◌, ℕ, List, Option};
ghost use Rattle.faults.specs.Answers.{answered};
ghost use Rattle.faults.specs.declared.call_fault.CallFault.{CallFault};
ghost use Rattle.networks.specs.Fixed.{Fixed, opened, opened_size};
ghost use Rattle.networks.specs.Net.{Net};

use crate::network::Network;
use faults::CallFault;

pub trait Opening: Network {
    type Memory;

    // what the check goes by: the length of each memory, and what else the kind is opened with
    ghost sizes: { Self.Memory → List ℕ };

    // 6 or 7, if one of them applies
    ghost refusal: { ℕ → List ℕ → Option CallFault };

    // the grades found in memory
    ghost found: { Self.Memory → List (Self.Grade) };

    // what an opening for n persons fixes
    ghost fixed_by: { ℕ → Self.Memory → Fixed (Self.Grade) };

    // the memory holds just this network
    ghost Holds: { Net (Self.Grade) → Fixed (Self.Grade) → Self.Memory → Type 0 };

    fn check(n: usize, memory: &Self::Memory) -> Result<(), CallFault>
        ensures { result ≡ answered (refusal n (sizes memory.now)) tt };

    // Cannot refuse: where the check does, there are no persons, and the memory is left alone.
    fn open(n: usize, memory: Self::Memory) -> Self
        ensures network { Self.Network.meaning result ≡ opened (opened_size (refusal n (sizes memory)) n) (found memory) }
        ensures fixed { Self.Network.fixed result ≡ fixed_by (opened_size (refusal n (sizes memory)) n) memory };

    fn close(self) -> Self::Memory
        ensures { Holds (Self.Network.meaning self) (Self.Network.fixed self) result };

    ghost sized: { (n : ℕ) (m : Self.Memory) → (fixed_by n m).sizes ≡ sizes m };

    ghost back: { (net : Net (Self.Grade)) (f : Fixed (Self.Grade)) (m : Self.Memory) → Holds net f m → sizes m ≡ f.sizes };
}
