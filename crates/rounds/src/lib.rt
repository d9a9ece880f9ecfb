//! A round: texts that were handed in are run as one deck, each as if it were alone; where the printout of each ends is noted.
#![tactic(auto)]

pub mod composing;
pub mod laws;
pub mod running;

pub use composing::{compose, compose_head};
pub use running::{Round, RoundError, run_round};
