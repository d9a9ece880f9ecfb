//! The variables of a job: their values, what they are associated with, what they hold at first, and what calls exchange.
//!
//! It knows no function and no call: those stand above it, in the state of a job.
#![tactic(auto)]

mod exchanging;
mod first;
pub mod laws;
mod lookup;
mod recent;
pub mod variable;
pub mod variables;

pub use first::first_variables;
pub use variable::{Found, Variable};
pub use variables::{Variables, value_at};
