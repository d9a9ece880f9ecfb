//! Lines one behind the other in one piece of memory, each with the LF that it is printed with.
//!
//! A contract sees them as a list, without LF.
#![tactic(auto)]

pub mod lines;

pub use lines::{PackedLines, ROOM};
