// Core numbers: k after k, who is left of the cascade is given k.
ghost use Rattle.std.specs.Prelude.{◌≡◌, ℕ, ◌<◌, ◌≤◌, true, false, length, slice_index};
ghost use Rattle.faults.specs.Answers.{answered, unless};
ghost use Rattle.grades.specs.Places.{onto};
ghost use Rattle.meaning.specs.Persons.{graph_of, cores_of};
ghost use Rattle.theory.specs.Cores.{core_number};
ghost use Rattle.cores.specs.Answer.{cores_fault, KeptIf};
ghost use Rattle.cores.specs.Lanes.{alive, Fits};
ghost use Rattle.cores.specs.Lent.{lanes_of};

use crate::lanes::Cascade;
use faults::CallFault;
use networks::Network;

impl<'a> Cascade<'a> {
    // Writes k for everyone who stands; is there anybody?
    fn note(&self, k: u32, row: &mut [u32]) -> bool
        requires { length self.now.fell.now ≤ length row.old }
        ensures some { (v : ℕ) → alive self.now.fell.now v ≡ true → result ≡ true }
        ensures written { (v : ℕ) → alive self.now.fell.now v ≡ true → slice_index row.new v ≡ k }
        ensures rest { (v : ℕ) → alive self.now.fell.now v ≡ false → slice_index row.new v ≡ slice_index row.old v }
    {
        for (v, mark) in self.fell.iter().enumerate() {
            if *mark == 0 {
                row[v] = k;
            }
        }
        self.fell.contains(&0)
    }
}

// The core numbers, into the first places of the row.
fn number_all<N: Network>(net: &N, mut cascade: Cascade, row: &mut [u32])
    requires lanes { Fits (N.meaning net.now).persons 1 (lanes_of cascade) cascade.near.now }
    requires start { cascade.tail ≡ 0 }
    requires places { (N.meaning net.now).persons ≤ length row.old }
    ensures numbers { (v : ℕ) → v < (N.meaning net.now).persons → slice_index row.new v ≡ core_number (graph_of (N.meaning net.now)) v }
    ensures rest { (v : ℕ) → (N.meaning net.now).persons ≤ v → slice_index row.new v ≡ slice_index row.old v }
{
    cascade.raise(net);
    cascade.note(0, row);
    for k in 1..=net.persons() as u32 {
        cascade.shrink(net, k, 1);
        if !cascade.note(k, row) {
            return;
        }
    }
}

// The core number of each person, into the first places of the row.
pub fn cores<N: Network>(net: &N, scratch: &mut [u32], row: &mut [u32]) -> Result<(), CallFault>
    ensures answer { result ≡ answered (cores_fault (N.meaning net.now).persons (length scratch.old) (length row.old)) tt }
    ensures numbers { row.new ≡ unless (cores_fault (N.meaning net.now).persons (length scratch.old) (length row.old)) (onto (cores_of (N.meaning net.now)) row.old) row.old }
    ensures kept { KeptIf (cores_fault (N.meaning net.now).persons (length scratch.old) (length row.old)) scratch.old scratch.new }
{
    let n = net.persons();
    if scratch.len() / 8 < n {
        return Err(CallFault::ShortScratch);
    }
    if row.len() < n {
        return Err(CallFault::NoRoom);
    }
    let (fell, rest) = scratch.split_at_mut(n);
    let (degree, rest) = rest.split_at_mut(n);
    let (order, rest) = rest.split_at_mut(n);
    let (near, _) = rest.split_at_mut(n);
    let cascade = Cascade {
        fell,
        degree,
        order,
        tail: 0,
        near,
    };
    number_all(net, cascade, row);
    Ok(())
}
