//! Statements of SNOBOL4 behind their labels: their trees, which tokens spell them, and how they are read.
#![tactic(auto)]

mod fault;
pub mod laws;
mod parser;
mod parsing;
mod statement;

pub use fault::{Fault, FaultKind};
pub use parsing::parse_statement;
pub use statement::{Body, Goto, Object, Statement, Target};
