// What is asked for: circles for k, at most r of them, every one or the innermost.
ghost use Rattle.std.specs.Prelude.{◌≤◌};
ghost use Rattle.queries.specs.declared.query.TheConstants.{MOST_LINKS, MOST_CIRCLES};

use crate::choice::Choice;

pub const MOST_LINKS: u32 = 4095;

pub const MOST_CIRCLES: u32 = 1024;

// There is no query outside its limits. A type for a number with a limit would say more than these two facts.
#[derive(Clone, Copy, PartialEq, Eq, Debug)]
pub struct Query {
    pub(crate) k: u32,
    pub(crate) r: u32,
    pub(crate) choice: Choice,
    ghost links: { (1 ≤ k) × (k ≤ MOST_LINKS) },
    ghost circles: { (1 ≤ r) × (r ≤ MOST_CIRCLES) },
}
