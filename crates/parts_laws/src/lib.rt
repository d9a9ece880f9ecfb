//! Texts that run one after the other over named data sets, and in parts: what is picked from the parts is the whole.
#![tactic(auto)]

pub mod laws;
