//! Each law is the contract of a function that does nothing.
ghost use Rattle.ledger_pruning.specs.Laws.{StaysWithin, StaysSince, ReadsTheRest, OpensTheSame, StartsLast, StartsThere};

/// All commits behind the checkpoint stay, and so many of the last.
pub fn stays_within()
    ensures { StaysWithin }
{}

/// Each commit of a time or later stays where those since then are kept.
pub fn stays_since()
    ensures { StaysSince }
{}

/// Where the first commits were removed, those behind the checkpoint are read as they stood.
pub fn reads_the_rest()
    ensures { ReadsTheRest }
{}

/// What stood behind the checkpoint's commits, and then the commits behind these, come to the same as all commits; and the first of those
/// behind names the last that the checkpoint names.
pub fn opens_the_same()
    ensures { OpensTheSame }
{}

/// Where a checkpoint serves, one is found that is no earlier.
pub fn starts_last()
    ensures { StartsLast }
{}

/// What is found is a checkpoint that serves.
pub fn starts_there()
    ensures { StartsThere }
{}
