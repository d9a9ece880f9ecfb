//! Jobs and their turns, over whoever answers what a program asks.
//!
//! A job is a program with the state that its statements change. A turn is one statement with all calls in it. No
//! statement is evaluated by recursion over its tree: a loop goes over its code, and only calls of functions nest.
#![tactic(auto)]

mod acting;
mod doing;
mod ending;
mod going;
mod items;
pub mod laws;
mod machine;
mod turning;

pub use ending::{Ending, Step};
pub use interaction::{Act, Answer, Request, Script, Service};
pub use machine::run_line;
pub use sno_state::Limits;
pub use turning::{Job, statement_turn};
