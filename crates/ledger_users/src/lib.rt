//! What the users of a site do: submissions are checked, handed in, and looked for while they wait.
#![tactic(auto)]

pub mod handing_in;

pub use handing_in::{Checked, Own, check_file, queue_of, submit_file};
