//! What holds of the ledger: of the calls that are made on a disk, whatever a crash leaves at any moment, and of what the commits say.
#![tactic(auto)]

pub mod course_laws;
pub mod laws;
