//! Each law is the contract of a function that does nothing.
ghost use Rattle.ledger_stretches.specs.Laws.{EachStretchRuns, RunsWereTaken};

/// In an honest ledger the texts of each stretch ran one after the other, over what was left before it: that is what they printed, and
/// what the stretch leaves.
pub fn each_stretch_runs<Text, Out, State, Change>()
    ensures { EachStretchRuns Text Out State Change }
{}

/// In a ledger in which none waited at first, each text that ran was taken under its number before.
pub fn runs_were_taken<Text, Out, State, Change>()
    ensures { RunsWereTaken Text Out State Change }
{}
