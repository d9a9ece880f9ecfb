//! The audit of a text, by the data sets that its cards name: its lines are those that there are over all.
#![tactic(auto)]

pub mod laws;
