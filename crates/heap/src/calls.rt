// The heap's calls: over any slice and any count of the places in which elements wait.
// The caller lends the places anew to each call, so the count goes with them and in no struct.
ghost use Rattle.std.specs.Prelude.{◌≡◌, ◌+◌, ◌-◌, List, [], ◌∷◌, length, drop, is_some, IfSome, IfNone, IfOk, OnErr};
ghost use Rattle.heap.specs.Bag.{waits, put_answer, Holds, AtMostAll, Least, Taken};

use crate::ordered::Ordered;
use crate::sift::{sift_up, take_first};
use faults::CallFault;

// The count of a heap in which nothing waits.
#[tactic(auto, using(crate::proofs::Standing::holds_none))]
pub fn empty<T: Ordered>(places: &[T]) -> usize
    ensures count { result ≡ 0 }
    ensures stands { Holds T.at_most [] places.now result }
{
    0
}

// Lets x wait, unless the places are full. Answers the new count.
pub fn put<T: Ordered + Copy>(places: &mut [T], waiting: usize, x: T) -> Result<usize, CallFault>
    ensures cases { result ≡ put_answer (length places.old) waiting }
    ensures kept { OnErr result (places.new ≡ places.old) }
    ensures behind { drop (waiting + 1) places.new ≡ drop (waiting + 1) places.old }
    ensures stands { IfOk result (λ n. (bag : List T) → Holds T.at_most bag places.old waiting → Holds T.at_most (x ∷ bag) places.new n) }
{
    if waiting >= places.len() {
        return Err(CallFault::NoRoom);
    }
    sift_up(&mut places[..=waiting], x);
    Ok(waiting + 1)
}

// The least of those that wait.
#[tactic(auto, using(crate::proofs::Standing::least_first))]
pub fn least<T: Ordered + Copy>(places: &[T], waiting: usize) -> Option<T>
    ensures cases { is_some result ≡ waits places.now waiting }
    ensures stands { IfSome result (λ x. (bag : List T) → Holds T.at_most bag places.now waiting → Least T.at_most bag x) }
{
    if waiting == 0 {
        return None;
    }
    places.first().copied()
}

// Takes the least of those that wait.
#[tactic(auto, using(crate::proofs::Standing::holds_take))]
pub fn take<T: Ordered + Copy>(places: &mut [T], waiting: usize) -> Option<T>
    ensures cases { is_some result ≡ waits places.old waiting }
    ensures kept { IfNone result (places.new ≡ places.old) }
    ensures behind { drop waiting places.new ≡ drop waiting places.old }
    ensures stands { IfSome result (λ x. (bag : List T) → Holds T.at_most bag places.old waiting → Taken T.at_most bag x places.new (waiting - 1)) }
{
    let n = waiting.min(places.len());
    if n == 0 {
        return None;
    }
    Some(take_first(&mut places[..n]))
}
