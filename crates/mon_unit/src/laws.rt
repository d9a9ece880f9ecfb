//! Laws of exchanges. Each is the contract of a function that does nothing.
ghost use Rattle.mon_unit.specs.Laws.{GotWhereGranted, ChangedWhereGranted, DenialsSayWhy, DenialsChangeNothing, OneLook, OneChange, JobsKeepToTies};

/// A record is got exactly where it is asked for and the access check grants r then.
pub fn got_where_granted()
    ensures { GotWhereGranted }
{}

/// A data set is changed exactly where that is asked and the access check grants w then.
pub fn changed_where_granted()
    ensures { ChangedWhereGranted }
{}

/// Each denial names what is missing, or the entry that decides.
pub fn denials_say_why()
    ensures { DenialsSayWhy }
{}

/// What is denied or has no room adds one note, and changes nothing else; the end of file changes nothing.
pub fn denials_change_nothing()
    ensures { DenialsChangeNothing }
{}

/// The answer depends on the units and on the one data set that the request looks at.
pub fn one_look()
    ensures { OneLook }
{}

/// A request changes no data set but the one that its unit is tied to.
pub fn one_change()
    ensures { OneChange }
{}

/// No program touches a data set that its units are not tied to.
pub fn jobs_keep_to_ties<A>()
    ensures { JobsKeepToTies A }
{}
