//! Laws of the grammar; nothing runs here.

ghost use Rattle.sno_statement.specs.Laws.{FaultIsLeftmost, OneStatement, Taken};

/// A list of tokens spells at most one statement.
pub fn one_statement()
    ensures { OneStatement }
{}

/// A statement is read from the tokens exactly where they spell it.
pub fn walk_takes_statements()
    ensures { Taken }
{}

/// The fault that is found is the leftmost one, and none is found exactly where the tokens are a statement with its variables.
pub fn fault_is_leftmost()
    ensures { FaultIsLeftmost }
{}
