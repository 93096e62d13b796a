// The refusals of the calls, one enum for every layer that answers them.
#![tactic(auto)]

ghost use Rattle.std.specs.Prelude.{◌≡◌};
ghost use Rattle.faults.specs.Answers.{code_of};

pub mod call_fault;

pub use call_fault::CallFault;

// 0 for a grant, and a refusal's number, as the rules tell answers: a number by promise, for whoever has to tell one.
pub fn code(answer: Result<(), CallFault>) -> u8
    ensures { result ≡ code_of answer }
{
    match answer {
        Ok(_) => 0,
        Err(fault) => u8::from(fault),
    }
}
