//! A round is cut into parts: by the names that are read of its texts, where there is room for all that they may make.
#![tactic(auto)]

pub mod cutting;

pub use cutting::{cut_round, have_room};
