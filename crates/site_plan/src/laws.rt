//! Laws over an operator's files: each function's contract is one, and its body is empty.
ghost use Rattle.site_plan.specs.Laws.{GivesAccounts, GivesSets};

/// The accounts that are read of a table are those that its lines spell, no two of one name.
pub fn gives_accounts()
    ensures { GivesAccounts }
{}

/// The data sets that are read of a catalogue's file are those that all of its lines spell behind the card of a catalogue.
pub fn gives_sets()
    ensures { GivesSets }
{}
