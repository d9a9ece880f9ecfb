//! What an operator or a primitive function gives.
ghost use Rattle.std.specs.Prelude.{◌≡◌, Result, IfOk, IsErrOf, OnErr};
ghost use Rattle.mon_text.specs.Stops.{Gives};
ghost use Rattle.sno_text.specs.declared.fault.Fault.{Fault};
ghost use Rattle.sno_text.specs.Patterns.{Pattern};
ghost use Rattle.sno_value.specs.Outcomes.{predicate, formed};

use crate::value::Value;
use mon_text::Stop;
use sno_text::{Fault, Pat};
use std::alloc::AllocError;

/// What an operator or a primitive function gives.
#[derive(Drop)]
pub enum Outcome {
    /// A value.
    Gives(Value),
    /// Failure, as of a predicate that does not hold.
    Fails,
    /// A fault, which ends the job.
    Faults(Fault),
}

/// What a predicate gives: the null string, or failure.
pub(crate) fn predicate(holds: bool) -> Outcome
    ensures { result ≡ predicate holds }
{
    if holds {
        Outcome::Gives(Value::null())
    } else {
        Outcome::Fails
    }
}

/// A pattern that was to be formed.
pub(crate) fn formed(made: Result<Pat, Stop<Fault>>) -> Result<Outcome, AllocError>
    ensures value { (said : Result Pattern Fault) → Gives (λ pattern. pattern) made said → IfOk result (λ outcome. outcome ≡ formed said) }
    ensures memory { OnErr result (IsErrOf made Stop.Memory) }
{
    match made {
        Ok(pattern) => Ok(Outcome::Gives(Value::Pattern(pattern))),
        Err(Stop::Refused(fault)) => Ok(Outcome::Faults(fault)),
        Err(Stop::Memory) => Err(AllocError),
    }
}
