//! A review of a deck, or of what an account submits, line by line: what each job is, and every mistake that can be seen. It goes on
//! behind a line that is refused, so as to find the next one.
//!
//! What is told of each, deck_lint says. What a review keeps grows with the accounts, the names of the data sets and the longest job or
//! permission list, and not with the deck.
#![tactic(auto)]

mod catalogue;
mod front;
pub mod review;
mod stream;

pub use deck_lint::{Detail, Reporter, Tally};
pub use review::{Review, review_submission};
