//! What programs mean, over whatever keeps the state of a job.
//!
//! The definitions say what expressions, statements and whole programs do. They know no catalogue, no code and no stack; the
//! crates above turn statements into code, and prove that it does the same.
#![tactic(auto)]

pub mod got;
pub mod laws;

pub use got::{Evaluated, Halt, got_of};
