//! Who may do what with the data sets of a deck, told before anything is run.
//!
//! Of the deck only its account table and its catalogue are read.
#![tactic(auto)]

pub mod access;
mod answers;
pub mod fault;
pub mod front;
pub mod question;
pub mod report;

pub use access::put_access;
pub use deck_syntax::Front;
pub use fault::Fault;
pub use front::{Refusal, read_front};
pub use question::{Form, Question};
pub use report::{put_report, report_streams};
