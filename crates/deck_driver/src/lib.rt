//! A deck that comes in pieces: each line takes effect as it is complete, and what its card prints is appended.
#![tactic(auto)]

pub mod fault;
pub mod feed;
mod feeding;
mod holding;
pub mod options;
pub mod section;
mod serving;

pub use fault::RunError;
pub use feed::DeckFeed;
pub use mon_monitor::Holder;
pub use options::{Counts, Options, Slots};
