//! The decks that are written of a deck's parts: each, run by itself, writes what is told of the part in the round.
#![tactic(auto)]

pub mod laws;
