//! A site's folder over the files of the system: its disk, its boxes, what its tables say, and what is told where something is wrong.
#![tactic(auto)]

pub mod disk;
pub mod fault;
pub mod known;
pub mod place;
pub mod tables;

pub use disk::SiteDisk;
pub use fault::{Fault, Wrong};
pub use known::{add_answer, place_of};
pub use place::{ARCHIVE, Host, LEDGER, Place, joined, seconds_now, text_of};
pub use tables::tables_in;
