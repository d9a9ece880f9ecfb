//! Each law is the contract of a function that only cites laws of the crate below.
ghost use Rattle.ledger_index.specs.Course.{CourseReadsBack};
ghost use Rattle.ledger_index.specs.Laws.{ReadsBack, OpensItself, RefusesParts, OpensOne};

/// What is printed of an index is read as itself.
pub fn reads_back()
    ensures { ReadsBack }
{
    ledger_text::laws::reads_back();
    ledger_text::laws::reads_records();
}

/// So it is opened where the ledger has its digest, the number of its commits and the digest of the last of them.
pub fn opens_itself()
    ensures { OpensItself }
{
    reads_back();
}

/// Of an index that is cut off anywhere nothing is opened, whatever digest the ledger has.
pub fn refuses_parts()
    ensures { RefusesParts }
{
    ledger_text::laws::refuses_parts();
}

/// Whatever is opened is the index of which the ledger has the digest, or two texts have the same digest.
pub fn opens_one()
    ensures { OpensOne }
{
    reads_back();
}

/// What is printed of the texts that wait and the answers that are owed is read as itself.
pub fn course_reads_back()
    ensures { CourseReadsBack }
{
    ledger_text::laws::reads_back();
    ledger_text::laws::reads_records();
}
