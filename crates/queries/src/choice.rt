// Which circles a query wants: every one, or the innermost ones.
ghost use Rattle.std.specs.Prelude.{◌≡◌};
ghost use Rattle.queries.specs.Choosing.{choice_numbered};

use faults::CallFault;

#[derive(Clone, Copy, PartialEq, Eq, Debug)]
pub enum Choice {
    Every,
    Innermost,
}

// 0 is every circle, 1 the innermost ones; no other number is a choice.
impl TryFrom<u32> for Choice {
    type Error = CallFault;

    ghost try_from_gives = { λ number r. r ≡ choice_numbered number };

    fn try_from(number: u32) -> Result<Choice, CallFault> {
        match number {
            0 => Ok(Choice::Every),
            1 => Ok(Choice::Innermost),
            _ => Err(CallFault::BadQuery),
        }
    }
}
