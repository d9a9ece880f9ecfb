//! What a text does, by the data sets that its cards name: it prints what it prints over all, and leaves the others as they are.
#![tactic(auto)]

pub mod laws;
