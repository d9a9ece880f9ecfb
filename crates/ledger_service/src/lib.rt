//! What is done to the folder of a site over and over: it is run, looked at and verified.
#![tactic(auto)]

pub mod answers;
pub mod checkpoints;
pub mod folders;
pub mod running;
pub mod serving;
pub mod sizes;
pub mod status;
pub mod ties;

pub use answers::{Pruned, prune};
pub use checkpoints::check;
pub use running::{Report, run_site};
pub use serving::refuse_full;
pub use sizes::Sizes;
pub use status::{Standing, Verified, Waiting, standing_of, verify};
