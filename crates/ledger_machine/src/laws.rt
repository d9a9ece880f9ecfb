//! Laws of a site's life: each is the contract of a function that only cites laws of the crates below.
ghost use Rattle.ledger_machine.specs.Laws.{StepsAreTexts, StepsAreADeck, EachStretchIsADeck};

use ledger_sets::laws::runs_lead;

/// What a submission prints is what its text prints in a round, over the data sets that the changes so far came to; and what it changes
/// leads to the data sets that it leaves.
pub fn steps_are_texts()
    ensures { StepsAreTexts }
{
    runs_lead();
}

/// Submissions one after the other are one deck: its output, as a program gives it whose first job has the number behind those that ran
/// before, is what they print, and the catalogue that they leave. Where none ran before, a plain `snomon` gives it.
pub fn steps_are_a_deck()
    ensures { StepsAreADeck }
{
    mon_monitor::laws::card_by_card();
    rounds::laws::each_alone();
    preflight::laws::never_refused();
    site_plan::laws::gives_accounts();
    runs_lead();
}

/// So in an honest ledger each stretch of records between two acts of the operator is one deck of the submissions that ran in it.
pub fn each_stretch_is_a_deck()
    ensures { EachStretchIsADeck }
{
    steps_are_a_deck();
}
