//! A text as a split sees it.

use mon_text::Name;

/// A text: its number, and what its cards speak of.
#[derive(Drop)]
pub struct Text {
    /// Its number in the round.
    pub number: u64,
    /// The names of data sets that its cards have.
    pub names: Vec<Name>,
    /// Whether a card of it speaks of all names, as `$CATALOG` does.
    pub all: bool,
    /// How much work it is.
    pub work: u128,
}
