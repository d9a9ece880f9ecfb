//! A round in parts, whole: what a split accepted of its texts means for them, and what its parts' outputs are, joined.
#![tactic(auto)]

pub mod laws;
