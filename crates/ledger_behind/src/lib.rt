//! What was changed so far, for clauses alone: the list takes no memory.
#![tactic(auto)]

pub mod behind;

pub use behind::Behind;
