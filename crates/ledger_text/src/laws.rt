//! Each law is the contract of a function that does nothing.
ghost use Rattle.ledger_text.specs.Records.{ReadsRecords};
ghost use Rattle.ledger_text.specs.Text.{ReadsBack, RefusesParts, RefusesMore, OneHistory};

/// What is written is read as itself.
pub fn reads_back()
    ensures { ReadsBack }
{}

/// Of a file that is cut off anywhere nothing is read.
pub fn refuses_parts()
    ensures { RefusesParts }
{}

/// Nor of one behind which more stands.
pub fn refuses_more()
    ensures { RefusesMore }
{}

/// Two ledgers that are accepted and end in the same commit are the same, or two of their commits have the same digest.
pub fn one_history()
    ensures { OneHistory }
{}

/// What a record says is read of its fields.
pub fn reads_records()
    ensures { ReadsRecords }
{}
