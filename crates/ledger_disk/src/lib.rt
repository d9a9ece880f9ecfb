//! A disk as the ledger uses it: names in folders, the calls that were made, and what a crash may leave of them.
#![tactic(auto)]

pub mod disk;
mod event;
pub mod files;
pub mod identity;
pub mod memory;
pub mod name;
mod paths;
mod record;

pub use disk::{Disk, DiskError};
pub use files::{FileDisk, System};
pub use identity::Identity;
pub use memory::MemoryDisk;
pub use name::{Folder, Name};
