//! Which files of many boxes come first: in each box by their names, and then the boxes in turns.
#![tactic(auto)]

pub mod laws;
pub mod names;
pub mod order;

pub use names::keep_first;
pub use order::in_turns;
