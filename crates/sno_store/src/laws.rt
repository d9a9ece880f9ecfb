//! Laws of the state. Each is the contract of a function that does nothing.
ghost use Rattle.sno_store.specs.Laws.{CallRestores, CallLeavesOthers, LevelsStay, CallsNest};

/// A call restores the values of the function's variables, whatever was done between.
pub fn call_restores()
    ensures { CallRestores }
{}

/// A call leaves the values of the other variables as they are at its end.
pub fn call_leaves_others()
    ensures { CallLeavesOthers }
{}

/// What is saved for the calls that are open stays as it is, whatever else is done.
pub fn levels_stay()
    ensures { LevelsStay }
{}

/// A call saves one level more, and its end takes that one away: the levels below stay as they are.
pub fn calls_nest()
    ensures { CallsNest }
{}
