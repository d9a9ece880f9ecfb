//! That a text which makes no data set may be run over those that its cards name.
#![tactic(auto)]

pub mod laws;
pub mod needs;

pub use needs::enough_for;
