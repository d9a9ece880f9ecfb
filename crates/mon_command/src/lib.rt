//! Owner commands over an account table and a catalogue, each answered by a printout.
//!
//! `execute` serves one command exactly as `commanded` in specs/ says; `laws` says what holds of every such answer.
#![tactic(auto)]

pub mod execution;
pub mod laws;
mod printing;
pub mod printout;
pub mod reply;
mod room;
pub mod said;

pub use deck_lines::Command;
pub use execution::{execute, put_answered, put_unlisted};
pub use printing::put_listing;
pub use printout::Printout;
pub use reply::{Reply, print_reason};
pub use said::Said;
