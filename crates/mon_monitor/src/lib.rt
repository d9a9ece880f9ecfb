//! The monitor: owner commands and jobs over one guarded catalogue, event by event.
//!
//! An event is a command, a job that enters, turns for a slot, or that all jobs run until they end. What events print and what
//! they leave is `played` in specs/, a function of the system and of where memory broke turns off. Each event here appends what
//! it prints, or nothing; `laws` says what holds of events. What an account may not see does not show in what happens for it, and
//! jobs on data sets of their own don't depend on the schedule: `isolation` has these laws, and the calls say it of themselves.
#![tactic(auto)]

pub mod events;
pub mod isolation;
pub mod laws;
mod listing;
pub mod monitor;
pub mod printed;

pub use mon_command::{Command, Printout};
pub use monitor::Monitor;
pub use printed::Printed;
pub use scheduler::{Holder, JobDeck, JobEnd, LoadError, Turned, put_printout, put_refusal};
