//! A deck, taken apart.

use deck_lines::DeckError;
use mon_text::Name;
use preflight::{Refusal, Submission};

/// A data set as it stands in a deck.
#[derive(Drop)]
pub struct SetText {
    /// Its name.
    pub name: Name,
    /// Its lines.
    pub text: Vec<u8>,
}

/// A deck, taken apart.
#[derive(Drop)]
pub struct Whole {
    /// The accounts, up to the card of the catalogue.
    pub front: Vec<u8>,
    /// The data sets.
    pub sets: Vec<SetText>,
    /// The texts of the stream.
    pub texts: Vec<Submission>,
}

/// Why a deck is not taken apart.
#[derive(Clone, Copy)]
pub enum Uncut {
    /// It is refused at this line, counted from 1.
    Refused(u64, DeckError),
    /// The text of this number, counted from 1, is not one that one account may hand in.
    Text(u64, Refusal),
    /// It is not written as a round is.
    Form,
}
