//! What comes of an expression.
ghost use Rattle.std.specs.Prelude.{◌≡◌};
ghost use Rattle.sno_semantics.specs.Outcomes.{got_of};

use sno_text::Fault;
use sno_value::{Outcome, Value};

/// How a job ends in the middle of a statement.
#[derive(Clone, Copy)]
pub enum Halt {
    /// A function that was called came to END.
    Normal,
    /// No further statement may begin.
    StatementLimit,
    /// A match has taken as many steps as it may.
    MatchLimit,
    /// There was a fault.
    Fault(Fault),
}

/// What comes of an expression.
#[derive(Drop)]
pub enum Evaluated {
    /// A value.
    Gives(Value),
    /// Failure.
    Fails,
    /// The end of the job.
    Halts(Halt),
}

/// What an operator or a primitive function gave: a fault ends the job.
pub fn got_of(outcome: Outcome) -> Evaluated
    ensures { result ≡ got_of outcome }
{
    match outcome {
        Outcome::Gives(value) => Evaluated::Gives(value),
        Outcome::Fails => Evaluated::Fails,
        Outcome::Faults(fault) => Evaluated::Halts(Halt::Fault(fault)),
    }
}
