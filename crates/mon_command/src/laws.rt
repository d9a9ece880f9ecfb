//! Laws of commands: what holds of every answer. Each is the contract of a function that does nothing, or only cites the
//! laws of the guard that it rests on.
ghost use Rattle.mon_command.specs.Laws.{ChangesWhereGranted, OtherSetsStay, RefusalsShowNothing, ShowsWhereGranted, HiddenSetsHaveNoEffect, DenialsSayWhy};

use mon_guard::laws;

/// The data sets change exactly where a command asks for a change and is granted it; a command that is told anything
/// but that it is done changes nothing.
pub fn changes_where_granted()
    ensures { ChangesWhereGranted }
{
    laws::owners_remove();
    laws::owners_set_lists();
    laws::makers_own();
}

/// A command changes no data set but the one that it names.
pub fn other_sets_stay()
    ensures { OtherSetsStay }
{
    laws::other_sets_stay();
}

/// A command that is refused or denied is told so in one line, and shows no record, list or name.
pub fn refusals_show_nothing()
    ensures { RefusalsShowNothing }
{}

/// Records are shown exactly where the access check grants r, a permission list to its owner and where x is granted,
/// and a name exactly where x is granted.
pub fn shows_where_granted()
    ensures { ShowsWhereGranted }
{
    laws::lends_where_granted();
}

/// What an account may not see has no effect: the names that it is shown, and how many they are, are the same whatever
/// data sets that it is not granted x on are there, and whatever they hold.
pub fn hidden_sets_have_no_effect()
    ensures { HiddenSetsHaveNoEffect }
{
    laws::hidden_sets_leave_no_trace();
}

/// A command is denied exactly where something is missing or an entry decides so, and the denial names that.
pub fn denials_say_why()
    ensures { DenialsSayWhy }
{
    laws::denials_say_why();
}
