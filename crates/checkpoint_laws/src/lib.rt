//! That a site's ledger which is opened from a checkpoint is the one that was written.
#![tactic(auto)]

pub mod laws;
