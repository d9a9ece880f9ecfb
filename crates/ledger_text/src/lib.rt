//! The text of a commit: fields, each behind its length.
#![tactic(auto)]

pub mod commit;
pub mod digests;
pub mod laws;
pub mod record;

pub use commit::{commit_text, read_commit};
pub use digests::digest;
pub use record::{Claimed, Entry, Record, read_record, record_text};
