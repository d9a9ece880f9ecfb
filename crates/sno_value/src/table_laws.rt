//! Laws of tables: each function's contract is one, and its body is empty.
ghost use Rattle.sno_value.specs.TableLaws.{SameWhereIdentical, SetIsFound, OthersStay};

/// Keys are the same where IDENT holds of their values.
pub fn same_where_identical()
    ensures { SameWhereIdentical }
{}

/// What an item is set to is found in it.
pub fn set_is_found()
    ensures { SetIsFound }
{}

/// What one item is set to leaves the others as they are.
pub fn others_stay()
    ensures { OthersStay }
{}
