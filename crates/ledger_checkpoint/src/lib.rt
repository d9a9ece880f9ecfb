//! Checkpoints: a site's state behind so many commits, as an index and a piece for each data set. A run reads the index, and the pieces of
//! those data sets that it needs: each is a change that the site's machine takes.
#![tactic(auto)]

pub mod applying;
pub mod laws;
pub mod picking;
pub mod pieces;
pub mod source;
pub mod writing;

pub use applying::{take_rest, take_sets};
pub use picking::pick_entries;
pub use pieces::{MemoryPieces, NotPut, Pieces};
pub use source::{MemorySource, Source};
pub use writing::{Behind, write_checkpoint};
