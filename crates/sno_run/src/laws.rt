//! Laws of turns. Each is the contract of a function that does nothing.
ghost use Rattle.sno_run.specs.Laws.{TurnsAlike, ManyTurnsAlike, BrokenGoesOn, NoTurnEndsEarly};

/// Two turns of one job whose answers begin alike ask the same, and end alike.
pub fn turns_alike()
    ensures { TurnsAlike }
{}

/// Two runs of one job, of so many turns each or to the end, whose answers begin alike ask the same, and end alike.
pub fn many_turns_alike()
    ensures { ManyTurnsAlike }
{}

/// What a turn was broken off after goes on to a whole turn.
pub fn broken_goes_on()
    ensures { BrokenGoesOn }
{}

/// A job's own limit is enough for its turns: no turn ends before the state's count of statements says so.
pub fn no_turn_ends_early()
    ensures { NoTurnEndsEarly }
{}
