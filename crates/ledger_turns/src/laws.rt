//! Each law is the contract of a function that does nothing.
ghost use Rattle.ledger_turns.specs.Order.{FairOrder};
ghost use Rattle.ledger_turns.specs.Names.{KeepsFirst, FirstAreFirst};

/// The order of a run is fair: each file has its place in it, those of a box stand in their own order, and nowhere is a box ahead of
/// another, that has files left, by more than one.
pub fn fair_order<T>()
    ensures { FairOrder T }
{}

/// Where names come one by one, and only the first so many are kept of those that came, in the end the first so many of all are kept.
pub fn keeps_first()
    ensures { KeepsFirst }
{}

/// Names in their order are the same names, and none stands before one that is lower.
pub fn first_are_first()
    ensures { FirstAreFirst }
{}
