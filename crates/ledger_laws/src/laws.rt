//! Each law is the contract of a function that does nothing.
ghost use Rattle.ledger_laws.specs.Laws.{CommitsWhole, ReadsTheChain, LeavesAPrefix, ClaimsLoseNothing, DeliversWhole};
ghost use Rattle.ledger_laws.specs.Laws.{StaysUntilRecorded, PassLosesNothing, KeepsEachFile, ClaimsCarefully};

/// Whatever a crash leaves while a commit is put, the ledger is the one of before, or that with the commit; once it is put, it is the
/// latter; and a run that goes on after a kill or a power cut finds the one or the other whole.
pub fn commits_whole()
    ensures { CommitsWhole }
{}

/// A ledger that stands is read as itself.
pub fn reads_the_chain()
    ensures { ReadsTheChain }
{}

/// Whatever a crash leaves of a run, at any of its calls, the ledger is that of a prefix of the run's commits, with all that had ended.
pub fn leaves_a_prefix()
    ensures { LeavesAPrefix }
{}

/// A claimed file is in its box, or under its number, whatever a crash leaves.
pub fn claims_lose_nothing()
    ensures { ClaimsLoseNothing }
{}

/// An answer is absent or the one that the ledger has, whatever a crash leaves.
pub fn delivers_whole()
    ensures { DeliversWhole }
{}

/// A claimed file is not removed before the commit that takes it is in the ledger.
pub fn stays_until_recorded()
    ensures { StaysUntilRecorded }
{}

/// In a whole pass no file is lost, whatever a crash leaves.
pub fn pass_loses_nothing()
    ensures { PassLosesNothing }
{}

/// Whatever a crash leaves of a run, at any of its calls, each dropped file is in exactly one commit, or where it can be claimed, and under
/// one number at most.
pub fn keeps_each_file()
    ensures { KeepsEachFile }
{}

/// To claim files that are in their boxes and under no number, and no two of which are one, is such a call of a run, each of them.
pub fn claims_carefully()
    ensures { ClaimsCarefully }
{}
