//! Each law is the contract of a function that only cites laws of the crates below.
ghost use Rattle.ledger_checkpoint.specs.Laws.{PickedAreOwn, OwnArePicked, PiecesStand, PiecesLead, ComesBack, GoesOn, OpensTheSame};

/// Whatever the pieces are: those that are taken of the entries of some names are those of the data sets that have these names, or two texts
/// have the same digest.
pub fn picked_are_own()
    ensures { PickedAreOwn }
{}

/// And of a checkpoint itself they can be taken.
pub fn own_are_picked()
    ensures { OwnArePicked }
{}

/// Each of its pieces has the digest that its entry says.
pub fn pieces_stand()
    ensures { PiecesStand }
{}

/// Behind the pieces of data sets there are these.
pub fn pieces_lead()
    ensures { PiecesLead }
{
    ledger_sets::laws::changes_lead();
    ledger_sets::laws::texts_lead();
}

/// With what the index says besides there is the state.
pub fn comes_back()
    ensures { ComesBack }
{
    pieces_lead();
    goes_on();
    ledger_sets::laws::texts_lead();
    ledger_text::laws::reads_back();
}

/// Changes that are made of the state behind others come to what all of them come to.
pub fn goes_on()
    ensures { GoesOn }
{}

/// A checkpoint that is opened and taken, whatever its files have, comes to what the changes before it come to, and so does whatever is
/// changed behind it; or two texts have the same digest.
pub fn opens_the_same()
    ensures { OpensTheSame }
{
    ledger_index::laws::opens_one();
    picked_are_own();
    comes_back();
    goes_on();
}
