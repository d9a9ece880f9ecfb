//! Statements as code for a machine with a stack of values, and that stack.
//!
//! A statement may be a thousand operators deep, so nothing recurses over it when it runs: all that it does is turned into
//! one list of instructions once, which does what the statement means.
#![tactic(auto)]

pub mod acts;
pub mod compile;
pub mod instr;
pub mod joining;
pub mod laws;
pub mod line;
pub mod loading;
pub mod moving;
pub mod stack;

pub use acts::code_of_act;
pub use compile::{code_of, code_of_name};
pub use instr::{Instr, Nest};
pub use line::{Jump, Line, Point, Target, point_of};
pub use loading::lines_of;
pub use stack::{Found, Spare, Stack, StackEntry, unreachable};
