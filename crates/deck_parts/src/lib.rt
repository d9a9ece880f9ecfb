//! A deck of texts with a `$DRAIN` card behind each, cut into the decks of its parts; and what these wrote, put together.
#![tactic(auto)]

pub mod audit;
pub mod cards;
pub mod deck;
pub mod joining;
pub mod output;
pub mod part;
pub mod pieces;
pub mod record;
pub mod splitting;
pub mod texts;
pub mod ties;
pub mod whole;

pub use audit::take_audit;
pub use deck::{SetText, Uncut, Whole};
pub use joining::{joined_audit, joined_output};
pub use output::{Misfit, take_output};
pub use part::part_deck;
pub use record::{MOST_PARTS, Record, TextNote, put_record, read_record};
pub use splitting::record_of;
pub use ties::{Tie, ties_of};
pub use whole::read_whole;
