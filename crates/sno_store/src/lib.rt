//! The state of a job: its variables, functions, keywords, and the levels of calls.
#![tactic(auto)]

pub mod call_frame;
pub mod callee;
pub mod function;
pub mod keyword;
pub mod laws;
mod naming;
pub mod store;

pub use callee::{Callee, Change, StateFunction};
pub use keyword::{Keyword, KeywordName, KeywordNumber, Keywords};
pub use sno_declarations::Function;
pub use sno_variables::{Found, Variable};
pub use store::Store;
