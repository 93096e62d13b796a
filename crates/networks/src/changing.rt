// A network for changing: one for reading that also takes link, unlink and regrade.
ghost use Rattle.std.specs.Prelude.{◌≡◌, ℕ};
ghost use Rattle.faults.specs.Answers.{answered};
ghost use Rattle.networks.specs.Changes.{link_fault, unlink_fault, regrade_fault, after_link, after_unlink, after_regrade};

use crate::network::Network;
use faults::CallFault;

// Each change promises the same of what the opening fixed, in one clause; a record round three clauses would hide them.
pub trait Changing: Network {
    // the number of links from which on a person takes no more
    ghost ceiling_of: { Self → ℕ };

    fn ceiling(&self) -> usize
        ensures { result ≡ ceiling_of self.now };

    fn link(&mut self, u: usize, v: usize) -> Result<(), CallFault>
        ensures cases { result ≡ answered (link_fault (ceiling_of self.old) (Self.Network.meaning self.old) u v) tt }
        ensures network { Self.Network.meaning self.new ≡ after_link (ceiling_of self.old) (Self.Network.meaning self.old) u v }
        ensures fixed { Self.Network.fixed self.new ≡ Self.Network.fixed self.old };

    fn unlink(&mut self, u: usize, v: usize) -> Result<(), CallFault>
        ensures cases { result ≡ answered (unlink_fault (Self.Network.meaning self.old) u v) tt }
        ensures network { Self.Network.meaning self.new ≡ after_unlink (Self.Network.meaning self.old) u v }
        ensures fixed { Self.Network.fixed self.new ≡ Self.Network.fixed self.old };

    fn regrade(&mut self, u: usize, grade: Self::Grade) -> Result<(), CallFault>
        ensures cases { result ≡ answered (regrade_fault (Self.Network.meaning self.old) u) tt }
        ensures network { Self.Network.meaning self.new ≡ after_regrade (Self.Network.meaning self.old) u grade }
        ensures fixed { Self.Network.fixed self.new ≡ Self.Network.fixed self.old };

    ghost settled: { (s : Self) → ceiling_of s ≡ (Self.Network.fixed s).ceiling };
}
