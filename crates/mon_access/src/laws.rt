//! Laws of the access check. Each is the contract of a function that does nothing.
ghost use Rattle.mon_access.specs.Laws.{ExactlyOneCaseApplies, GrantsByItsCase, OrderGrantsNothing, GrantsSmallerRequests, NeverFallsThrough, MaskLimitsNamedEntriesAndGroups, MaskSparesOwnerAndOthers, GroupsAreNotJoined, DecidersLackThePart};

/// Exactly one of the four cases of acl(5), "ACCESS CHECK ALGORITHM", applies.
pub fn exactly_one_case_applies()
    ensures { ExactlyOneCaseApplies }
{}

/// In the case that applies, access is granted exactly where acl(5) grants it.
pub fn grants_by_its_case()
    ensures { GrantsByItsCase }
{}

/// The entries are read as a set: two lists of the same entries grant alike, whatever their order.
pub fn order_grants_nothing()
    ensures { OrderGrantsNothing }
{}

/// What is granted is granted in part too.
pub fn grants_smaller_requests()
    ensures { GrantsSmallerRequests }
{}

/// The mask limits neither the owner nor all others.
pub fn mask_spares_owner_and_others()
    ensures { MaskSparesOwnerAndOthers }
{}

/// An account that a named user's entry or a group's entry is for is never judged by the entry for all others.
pub fn never_falls_through()
    ensures { NeverFallsThrough }
{}

/// The mask limits named users, the owning group and named groups.
pub fn mask_limits_named_entries_and_groups()
    ensures { MaskLimitsNamedEntriesAndGroups }
{}

/// Two groups of an account are never joined: what a group grants, some one of its entries holds whole.
pub fn groups_are_not_joined()
    ensures { GroupsAreNotJoined }
{}

/// A denial names the one decider that is right: the entry of the case that applies, which lacks a part of the request, or
/// the mask that does, where an entry for the account holds the whole.
pub fn deciders_lack_the_part()
    ensures { DecidersLackThePart }
{}
