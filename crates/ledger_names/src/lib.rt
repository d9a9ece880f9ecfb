//! Of files that are dropped: the names under which they stand once they are claimed, and which of them can be claimed, by which
//! they are.
#![tactic(auto)]

pub mod laws;
pub mod naming;
pub mod sorting;

pub use naming::{Claim, claimed_name, read_claimed_name};
pub use sorting::{Boxed, Sorted, sort_boxed};
