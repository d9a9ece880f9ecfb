//! What a site's data sets are changed into, as records of a commit: the change from one catalogue to another is written, read back, and
//! made.
#![tactic(auto)]

mod applying;
mod heads;
pub mod laws;
pub mod part;
mod reading;
mod records;
mod sets;
pub mod site;
pub mod writing;

pub use applying::apply_change;
pub use part::{Part, Which};
pub use site::{NoChange, State, Tables};
pub use writing::{rest_change, run_change, sets_change, tables_change, whole_change};
