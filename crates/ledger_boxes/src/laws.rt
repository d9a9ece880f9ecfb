//! Each law is the contract of a function that does nothing.
ghost use Rattle.ledger_boxes.specs.Admission.{TakesExactly};

use preflight::laws::one_verdict;

/// A file is taken exactly where it is a regular file of its user alone, within the limit, whose lines are whole cards of their account, and
/// breaks no limit.
pub fn takes_exactly()
    ensures { TakesExactly }
{
    one_verdict();
}
