//! Each law is the contract of a function that does nothing.
ghost use Rattle.ledger_names.specs.Naming.{ReadsNames};

/// The name under which a claimed file stands says whose it is and what it was called.
pub fn reads_names()
    ensures { ReadsNames }
{}
