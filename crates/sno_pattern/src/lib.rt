//! Matching of patterns, step by step as the table says, for every host.
#![tactic(auto)]

mod choice_points;
mod consuming;
mod deterministic;
pub mod ending;
pub mod host;
pub mod laws;
mod matching;
mod meeting;
mod running;
mod starting;
mod steps;
mod trail;

pub use ending::{Assignments, MatchEnd, Pending};
pub use host::{Looked, MatchHost, Stop, Taken};
pub use matching::matches;
pub use sno_text::{Fault, Pat};
