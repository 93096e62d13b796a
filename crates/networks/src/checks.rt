// What a change of a network is refused for, the first refusal that applies, whatever the kind of network.
ghost use Rattle.std.specs.Prelude.{◌≡◌, None};
ghost use Rattle.faults.specs.Answers.{answered};
ghost use Rattle.networks.specs.Changes.{pair_fault, new_pair_fault, link_fault, unlink_fault, regrade_fault};

use crate::network::Network;
use faults::CallFault;

// A person, which is all that a regrade asks.
pub fn check_regrade<N: Network>(net: &N, u: usize) -> Result<(), CallFault>
    ensures { result ≡ answered (regrade_fault (N.meaning net.now) u) tt }
{
    if u < net.persons() {
        Ok(())
    } else {
        Err(CallFault::NoSuchPerson)
    }
}

// Two persons.
fn check_pair<N: Network>(net: &N, u: usize, v: usize) -> Result<(), CallFault>
    ensures { result ≡ answered (pair_fault (N.meaning net.now) u v None) tt }
{
    check_regrade(net, u)?;
    check_regrade(net, v)?;
    if u == v {
        return Err(CallFault::SamePerson);
    }
    Ok(())
}

// A link that no ceiling can refuse.
pub fn check_new_pair<N: Network>(net: &N, u: usize, v: usize) -> Result<(), CallFault>
    ensures { result ≡ answered (new_pair_fault (N.meaning net.now) u v) tt }
{
    check_pair(net, u, v)?;
    if net.linked(u, v) {
        return Err(CallFault::AlreadyLinked);
    }
    Ok(())
}

pub fn check_link<N: Network>(net: &N, u: usize, v: usize, ceiling: usize) -> Result<(), CallFault>
    ensures { result ≡ answered (link_fault ceiling (N.meaning net.now) u v) tt }
{
    check_new_pair(net, u, v)?;
    if net.degree(u) >= ceiling || net.degree(v) >= ceiling {
        return Err(CallFault::AtCeiling);
    }
    Ok(())
}

pub fn check_unlink<N: Network>(net: &N, u: usize, v: usize) -> Result<(), CallFault>
    ensures { result ≡ answered (unlink_fault (N.meaning net.now) u v) tt }
{
    check_pair(net, u, v)?;
    if !net.linked(u, v) {
        return Err(CallFault::NotLinked);
    }
    Ok(())
}
