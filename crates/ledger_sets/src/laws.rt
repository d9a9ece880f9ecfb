//! Each law is the contract of a function that does nothing.
ghost use Rattle.ledger_sets.specs.Laws.{ChangesLead, TextsLead, RunsLead, PartsAreRefused};

/// The changes between two catalogues make the one of the other.
pub fn changes_lead()
    ensures { ChangesLead }
{}

/// What is written of changes does what they do.
pub fn texts_lead()
    ensures { TextsLead }
{
    ledger_text::laws::reads_back();
    ledger_text::laws::reads_records();
}

/// Behind what is written of a text's run there are the data sets that it left.
pub fn runs_lead()
    ensures { RunsLead }
{
    changes_lead();
    texts_lead();
}

/// Cut off anywhere it does nothing.
pub fn parts_are_refused()
    ensures { PartsAreRefused }
{
    ledger_text::laws::refuses_parts();
}
