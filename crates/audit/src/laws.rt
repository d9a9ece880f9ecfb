//! Laws of the audit's lines. Each is the contract of a function that does nothing, or only cites laws of the crates below.
ghost use Rattle.audit.specs.Laws.{EntriesAreNamed, GrantsAreNamed, ReadsAreNamed, ChangesAreNamed, TextsAreLeftOut, TellsApart};

use mon_access::granting_laws;

/// There is an entry to name of a request exactly where the access check grants it.
pub fn entries_are_named()
    ensures { EntriesAreNamed }
{
    granting_laws::named_where_granted();
    granting_laws::names_an_entry();
}

/// A line names an entry exactly where the access check grants what the act asks of the data set's list.
pub fn grants_are_named()
    ensures { GrantsAreNamed }
{
    entries_are_named();
}

/// Each record that a job gets from a data set is told with the entry by which it was granted.
pub fn reads_are_named()
    ensures { ReadsAreNamed }
{
    grants_are_named();
    mon_unit::laws::got_where_granted();
}

/// Each change of a data set is told with the entry by which it was granted.
pub fn changes_are_named()
    ensures { ChangesAreNamed }
{
    grants_are_named();
    mon_unit::laws::changed_where_granted();
}

/// No record's text is in a line.
pub fn texts_are_left_out()
    ensures { TextsAreLeftOut }
{}

/// Two requests that differ in anything but records' texts have two lines.
pub fn tells_apart()
    ensures { TellsApart }
{}
