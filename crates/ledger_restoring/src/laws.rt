//! Each law is the contract of a function that only cites laws of the crate below.
ghost use Rattle.ledger_restoring.specs.Laws.{RestoresIt, KeepsOthers};

/// The data set is then what it was.
pub fn restores_it()
    ensures { RestoresIt }
{
    mon_catalogue::laws::named_set_changes();
}

/// All others are what they are.
pub fn keeps_others()
    ensures { KeepsOthers }
{
    mon_catalogue::laws::other_sets_stay();
}
