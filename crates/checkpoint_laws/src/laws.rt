//! Each law is the contract of a function that only cites laws of the crates below.
ghost use Rattle.checkpoint_laws.specs.Laws.{ChangesAreAlike, OpensFromIt};

/// Over changes that come to the same, whatever is changed behind them, each submission does the same.
pub fn changes_are_alike()
    ensures { ChangesAreAlike }
{}

/// What is opened from a checkpoint's files, whatever they have, is what the ledger and the machine were when it was written, or two texts have
/// the same digest. So `open_behind` of ledger_run goes on from there.
pub fn opens_from_it()
    ensures { OpensFromIt }
{
    changes_are_alike();
    ledger_index::laws::opens_one();
    ledger_checkpoint::laws::opens_the_same();
    ledger_run::laws::known_as_it_was();
}
