//! Which names the cards of a text speak of, read from its bytes.
#![tactic(auto)]

pub mod reading;

pub use reading::text_of;
