//! What is told of texts that accounts hand in, before anything is run.
//!
//! Which are admitted, as a part of the stream of a deck that is everyone's; what they ask for, in numbers; and how much an account may
//! hand in for a round.
#![tactic(auto)]

mod intake;
pub mod laws;
pub mod quota;
pub mod submission;
pub mod tally;
pub mod why;

pub use quota::{HandedIn, Limit, Quota, within};
pub use submission::{Submission, examine};
pub use tally::Tally;
pub use why::{Refusal, Why};
