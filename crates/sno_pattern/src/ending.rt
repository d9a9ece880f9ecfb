//! How matches end.

use mon_text::Listed;
use sno_text::{Fault, Text};

/// An assignment that waits for the end of a match.
#[derive(Drop)]
pub struct Pending {
    pub variable: Text,
    pub text: Text,
}

/// Assignments, the oldest first.
pub type Assignments = Listed<Pending>;

/// How a match ends.
#[derive(Drop)]
pub enum MatchEnd {
    /// It succeeds between two cursors, with the assignments that are to be made then.
    Matched {
        from: usize,
        to: usize,
        pending: Assignments,
    },
    NoMatch,
    /// It has no step left.
    Limit,
    /// The host told a fault.
    Fault(Fault),
}
