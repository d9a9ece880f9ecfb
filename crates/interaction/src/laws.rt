//! Laws of what is asked. Each is the contract of a function that does nothing.
ghost use Rattle.interaction.specs.Laws.{RunsAlike, BegunGoesOn};

/// Two runs whose answers begin alike ask the same, and end alike.
pub fn runs_alike<A>()
    ensures { RunsAlike A }
{}

/// What has begun goes on to some end.
pub fn begun_goes_on<A>()
    ensures { BegunGoesOn A }
{}
