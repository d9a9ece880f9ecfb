//! The index of a checkpoint as text: what it is a checkpoint of, and which data sets it has, each with the place and the digest of its
//! records.
#![tactic(auto)]

pub mod course;
pub mod fault;
pub mod index;
pub mod laws;
pub mod opening;
mod reading;
pub mod writing;

pub use course::{Course, Kept, course_text, read_course};
pub use fault::CheckpointFault;
pub use index::{Entry, Head, Index, Span};
pub use opening::{Sealed, read_index};
pub use writing::{entry_text, index_text};
