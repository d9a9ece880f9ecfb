//! What is read of a program for its listing: which statements begin on which card, which names in them lead nowhere, and why
//! the program is refused, each of its statements by itself.
#![tactic(auto)]

pub mod loose_name;
mod misuse;
pub mod program;
pub mod rows;
pub mod source;
mod usage;

pub use loose_name::{LooseKind, LooseName, loose_names};
pub use program::{put_cards, put_program};
pub use rows::put_rows;
pub use source::{Source, read_source};
