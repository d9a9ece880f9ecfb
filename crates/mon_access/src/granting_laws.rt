//! Laws of the entry that grants. Each is the contract of a function that does nothing.
ghost use Rattle.mon_access.specs.GrantingLaws.{GrantsByTheEntry, NamedWhereGranted, NamesAnEntry};

use crate::laws;

/// In the case that applies, the entry that is named is the one by which acl(5) grants, and no other is.
pub fn grants_by_the_entry()
    ensures { GrantsByTheEntry }
{
    laws::grants_by_its_case();
}

/// An entry is named exactly where the access check grants.
pub fn named_where_granted()
    ensures { NamedWhereGranted }
{}

/// The entry that is named is in the list.
pub fn names_an_entry()
    ensures { NamesAnEntry }
{}
