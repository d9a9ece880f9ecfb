//! What a run does about the boxes of a site: which names are passed over, which files are taken, what is told where one is not, and
//! which record follows. It stands on what is seen of a box, whatever tells that.
#![tactic(auto)]

pub mod admission;
pub mod boxes;
pub mod files;
mod glimpse;
pub mod laws;
pub mod listing;
pub mod look;
pub mod none;
mod patience;
mod record;
pub mod serving;
pub mod taking;
mod weighing;

pub use admission::{Decision, Owner, decide};
pub use boxes::Boxes;
pub use files::FileBoxes;
pub use listing::{first_in_box, names_in_box};
pub use look::{BoxFault, BoxLook, Entry, Kind, Look};
pub use none::NoBoxes;
pub use serving::box_fault;
pub use taking::{Due, record_of, take_up};
