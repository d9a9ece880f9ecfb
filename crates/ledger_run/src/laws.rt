//! Each law is the contract of a function that at most cites laws of the crates below.
ghost use Rattle.ledger_run.specs.Finishing.{FinishesCarefully};
ghost use Rattle.ledger_run.specs.Known.{KnownAsItWas};
ghost use Rattle.ledger_run.specs.Passes.{PassIsCareful, RunKeepsFiles};
ghost use Rattle.ledger_run.specs.Runs.{Restarts};

pub use ledger_names::laws::reads_names;

/// What a power cut leaves of a run is what the next run opens.
pub fn restarts()
    ensures { Restarts }
{}

/// To finish claims, as `open_ledger` does, is to make calls under which each dropped file is kept (`keeps_each_file` of `ledger_laws`).
pub fn finishes_carefully()
    ensures { FinishesCarefully }
{}

/// A whole pass is made of such calls and commits as `keeps_each_file` of `ledger_laws` asks for: files are claimed, each is recorded and
/// removed then, and texts are run and answered.
pub fn pass_is_careful()
    ensures { PassIsCareful }
{}

/// A whole run, from where the ledger's names are on the disk: claims that were left half done are finished, what can be claimed is, and a
/// pass follows. Each dropped file is in exactly one commit, or still where it can be claimed, whatever a crash leaves.
pub fn run_keeps_files()
    ensures { RunKeepsFiles }
{}

/// What is known by the text that was written of a ledger is what it had in memory.
pub fn known_as_it_was()
    ensures { KnownAsItWas }
{
    ledger_index::laws::course_reads_back();
}
