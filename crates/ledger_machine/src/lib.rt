//! What runs a site's texts, and what holds of its life.
#![tactic(auto)]

mod events;
pub mod laws;
pub mod machine;
mod running;
pub mod site_machine;
mod watched_audit;
pub mod watched_machine;
pub mod watching;

pub use machine::{run_text, run_watched};
pub use site_machine::SiteMachine;
pub use watched_machine::WatchedMachine;
pub use watching::{Bounded, Bounds, Clock, Unwatched, Watch};
