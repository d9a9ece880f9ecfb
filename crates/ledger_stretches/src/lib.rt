//! What holds of the stretches of a ledger: of the records between two acts of the operator.
#![tactic(auto)]

pub mod laws;
