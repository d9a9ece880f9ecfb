//! Laws over programs: each function's contract is one, and its body is empty.
ghost use Rattle.sno_cards.specs.Laws.{PlacesAreTrue, OneCut};

/// Each character of a statement, and of what stands on the END line, is the one that is read at its place.
pub fn places_are_true()
    ensures { PlacesAreTrue }
{}

/// A line is cut into its pieces in one way: they are the line but for a `;` between two of them, none has another `;`
/// outside literals, and none of those between stands in a literal.
pub fn one_cut()
    ensures { OneCut }
{}
