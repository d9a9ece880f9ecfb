//! Laws of the state of a job. Each is the contract of a function that does nothing.
ghost use Rattle.sno_state.specs.Laws.{StateCounts};

/// The state counts its statements: each that begins is one of those that the job's limit still lets begin, and nothing else
/// that is done makes these more. So the limit is exact, whatever `&STLIMIT` says.
pub fn state_counts()
    ensures { StateCounts }
{}
