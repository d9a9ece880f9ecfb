//! Which commits and answers of a ledger may be removed where a checkpoint stands, and that what is left opens to the same.
#![tactic(auto)]

pub mod ages;
pub mod laws;
pub mod pruning;
pub mod starting;

pub use ages::{Answer, answer_of, is_outdated, kept_since, since};
pub use pruning::{first_kept, first_since, removable};
pub use starting::start_for;
