//! The numbers of jobs: they are told of jobs, and do nothing. A text that is run by itself does what it does behind other jobs.
#![tactic(auto)]

pub mod laws;
