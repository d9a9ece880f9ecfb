//! Laws of the guard. Each is the contract of a function that does nothing, or only cites a law that it rests on.
ghost use Rattle.mon_guard.specs.Laws.{LendsWhereGranted, HiddenSetsLeaveNoTrace, DenialsSayWhy, DenialsNameAnEntry, OwnersRemove, OwnersSetLists, MakersOwn, ActsWhereGranted, OtherSetsStay};

use mon_access::laws::deciders_lack_the_part;

/// Records are lent exactly where r is granted, a permission list to its owner and where x is granted, and a name exactly
/// where x is granted.
pub fn lends_where_granted()
    ensures { LendsWhereGranted }
{}

/// A set whose name the account may not see leaves no trace in the names that it is lent.
pub fn hidden_sets_leave_no_trace()
    ensures { HiddenSetsLeaveNoTrace }
{}

/// Something is denied exactly where a set is missing, is another's, or an entry decides so, and the denial names that.
pub fn denials_say_why()
    ensures { DenialsSayWhy }
{}

/// A denial by the access check names an entry of the set's list that lacks a part of the request.
pub fn denials_name_an_entry()
    ensures { DenialsNameAnEntry }
{
    deciders_lack_the_part();
}

/// A set is removed exactly where it is the account's; else nothing changes.
pub fn owners_remove()
    ensures { OwnersRemove }
{}

/// A list is set exactly where the set is the account's and the text spells the list; else nothing changes.
pub fn owners_set_lists()
    ensures { OwnersSetLists }
{}

/// A set is created exactly where its name is free and there is room, and is then its maker's; else nothing changes.
pub fn makers_own()
    ensures { MakersOwn }
{}

/// An act on records is done exactly where its request is granted; else it is denied, says why, and changes nothing.
pub fn acts_where_granted()
    ensures { ActsWhereGranted }
{}

/// No call changes another set than the one that it names.
pub fn other_sets_stay()
    ensures { OtherSetsStay }
{
    // Said of the catalogue's own changes.
    mon_catalogue::laws::other_sets_stay();
}
