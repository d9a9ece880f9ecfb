//! Texts in parts: which text and which name goes to which part, whether that is a split, and what the parts gave, joined.
#![tactic(auto)]

pub mod checking;
pub mod classes;
pub mod joining;
pub mod packing;
pub mod split;
pub mod text;

pub use checking::are_apart;
pub use joining::{Part, join_audits, join_parts};
pub use packing::pack;
pub use split::Split;
pub use text::Text;
