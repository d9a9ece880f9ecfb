//! An audit tells the history of a deck: two runs with one audit have one history in all that lines tell, but for the characters of records.
#![tactic(auto)]

pub mod laws;
