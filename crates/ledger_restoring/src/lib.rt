//! A data set is brought back to what it was: the change that does it, and that it leaves all others as they are.
#![tactic(auto)]

pub mod laws;
pub mod restoring;

pub use restoring::{RestoreFault, restore_change};
