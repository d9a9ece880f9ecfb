//! Laws over decks: each function's contract is one, and its body is empty.
ghost use Rattle.deck_syntax.specs.Laws.{ReadingSpells, OneDeck, RefusalsStand, GoodBeginnings, CataloguesComeBack};

/// The deck that is computed of lines comes to its `$STOP` exactly where they are a good deck, and it is that one.
pub fn reading_spells()
    ensures { ReadingSpells }
{}

/// Lines are one good deck at the most.
pub fn one_deck()
    ensures { OneDeck }
{}

/// A refusal at a line is settled by the lines up to it: no deck that begins with them is good. The exception is a deck that
/// ends too early.
pub fn refusals_stand()
    ensures { RefusalsStand }
{}

/// The lines before the one at which a deck is refused begin a good deck, of the same accounts and the same commands; and so
/// that line is the first that is wrong.
pub fn good_beginnings()
    ensures { GoodBeginnings }
{}

/// What is written of a catalogue is good in the next deck, and is there the same data sets.
pub fn catalogues_come_back()
    ensures { CataloguesComeBack }
{}
