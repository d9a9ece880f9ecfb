//! Each law is the contract of a function that does nothing.
ghost use Rattle.ledger_tables.specs.Limits.{ReadsLimits};
ghost use Rattle.ledger_tables.specs.Users.{ReadsUsers};
ghost use Rattle.ledger_tables.specs.Tables.{ReadsTables};

use ledger_text::laws::reads_back;

/// Limits that are printed are read as themselves.
pub fn reads_limits()
    ensures { ReadsLimits }
{}

/// Users that are printed are read as themselves, where no number and no account stands twice.
pub fn reads_users()
    ensures { ReadsUsers }
{}

/// The texts of the tables are read of a record as they were put there.
pub fn reads_tables()
    ensures { ReadsTables }
{
    reads_back();
}
