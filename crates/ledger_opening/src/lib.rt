//! A site is opened: its ledger is followed by the machine that runs its submissions, and what watches these is made.
#![tactic(auto)]

pub mod attending;
pub mod checkpoint;
pub mod progress;
pub mod site;

pub use attending::progress_there;
pub use progress::Progress;
pub use site::{Site, commits_there, numbers_in, open_site, runner_of, state_of, who_is};
