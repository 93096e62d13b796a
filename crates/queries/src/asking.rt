// Making a query, and what it asks for.
ghost use Rattle.std.specs.Prelude.{◌≡◌, ◌≤◌, ◌↔◌, IfOk, IsTrue};
ghost use Rattle.queries.specs.Asking.{query_fault, fault_of, Asks};

use crate::choice::Choice;
use crate::query::{MOST_CIRCLES, MOST_LINKS, Query};
use faults::CallFault;

impl Query {
    // The choice is 0 for every circle, 1 for the innermost ones.
    pub fn new(k: u32, r: u32, choice: u32) -> Result<Query, CallFault>
        ensures cases { fault_of result ≡ query_fault k r choice }
        ensures asks { IfOk result (λ q. Asks q k r choice) }
    {
        let choice = Choice::try_from(choice)?;
        if (1..=MOST_LINKS).contains(&k) && (1..=MOST_CIRCLES).contains(&r) {
            Ok(Query { k, r, choice })
        } else {
            Err(CallFault::BadQuery)
        }
    }

    pub fn k(&self) -> u32
        ensures value { result ≡ self.now.k }
        ensures limits { (1 ≤ result) × (result ≤ MOST_LINKS) }
    {
        self.k
    }

    pub fn r(&self) -> u32
        ensures value { result ≡ self.now.r }
        ensures limits { (1 ≤ result) × (result ≤ MOST_CIRCLES) }
    {
        self.r
    }

    pub fn choice(&self) -> Choice
        ensures { result ≡ self.now.choice }
    {
        self.choice
    }

    pub fn innermost(&self) -> bool
        ensures { IsTrue result ↔ (self.now.choice ≡ Choice.Innermost) }
    {
        self.choice == Choice::Innermost
    }
}
