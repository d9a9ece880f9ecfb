//! Permission lists after acl(5): their entries, and which lists are valid.
//!
//! A contract sees an `Acl` as the list of its entries in canonical order.
#![tactic(auto)]

pub mod entries;
mod keys;
pub mod list;
pub mod refusals;

pub use entries::{Entry, Perms, Tag, copy_of_mask};
pub use list::{Acl, AclIndex, ENTRIES_INLINE};
pub use refusals::AclError;
