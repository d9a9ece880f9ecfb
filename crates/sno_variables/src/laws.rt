//! Laws of variables. Each is the contract of a function that does nothing.
ghost use Rattle.sno_variables.specs.Laws.{PutIsFound, OthersStay, NamingChangesNothing, AssociationsStay};

/// What a variable is given is found in it.
pub fn put_is_found()
    ensures { PutIsFound }
{}

/// What one variable is given leaves the others as they are.
pub fn others_stay()
    ensures { OthersStay }
{}

/// Naming a variable changes none.
pub fn naming_changes_nothing()
    ensures { NamingChangesNothing }
{}

/// Calls leave all associations as they are.
pub fn associations_stay()
    ensures { AssociationsStay }
{}
