//! The entries of a list that are for someone, each found by its type and its name.
ghost use Rattle.std.specs.Prelude.{◌≡◌, ◌∷◌, None, true};
ghost use Rattle.mon_acl.specs.Entries.{rank, has_tag, is_qualified, IsCanonical, IsAcl};
ghost use Rattle.mon_acl.specs.Permissions.{holds};
ghost use Rattle.mon_access.specs.Matches.{is_in_group, is_for_user, is_for_owning_group, is_for_named_group, is_for_group, some_holds};
ghost use Rattle.mon_access.specs.inner.Kinds.{found, judged, joined, is_holding, stands_at};

use crate::account::{Account, has_group};
use mon_acl::{AclIndex, Perms, Tag};
use mon_text::Name;

/// What the entries of one kind say of a request.
#[derive(Clone, Copy)]
pub(crate) enum Found {
    /// There are none.
    Nobody,
    /// None holds the whole request, and the first stands at this index.
    Lacking(usize),
    /// Some one entry holds the whole request.
    Holding,
}

impl Found {
    /// Whether some one entry holds the whole request.
    pub(crate) fn is_holding(self) -> bool
        ensures { result ≡ is_holding self }
    {
        matches!(self, Found::Holding)
    }

    /// What the entries of two kinds say together.
    fn joined(self, other: Found) -> Found
        ensures { result ≡ joined self other }
    {
        match (self, other) {
            // Most names have no entry.
            (found, Found::Nobody) => found,
            (Found::Holding, _) | (_, Found::Holding) => Found::Holding,
            (Found::Nobody, found) => found,
            (Found::Lacking(i), Found::Lacking(j)) => Found::Lacking(i.min(j)),
        }
    }
}

/// What the only entry of a kind says.
fn judged(index: usize, perms: Perms, request: Perms) -> Found
    ensures { result ≡ judged (holds perms request) index }
{
    if perms.contains(request) {
        Found::Holding
    } else {
        Found::Lacking(index)
    }
}

/// What the entry of a type for a name says.
#[inline(always)]
fn of_name(acl: &AclIndex, tag: Tag, name: &Name, request: Perms) -> Found
    requires { IsCanonical acl.now }
    ensures { result ≡ found (stands_at (rank tag ∷ name.now)) acl.now request }
{
    match acl.index_of(tag, name) {
        Some(index) => judged(index, acl.perms_at(index), request),
        None => Found::Nobody,
    }
}

/// What the entry of a type without names says.
pub(crate) fn of_type(acl: &AclIndex, tag: Tag, request: Perms) -> Found
    requires list { IsAcl acl.now }
    requires lone { is_qualified tag None ≡ true }
    ensures { result ≡ found (has_tag tag) acl.now request }
{
    match acl.index_of_type(tag) {
        Some(index) => judged(index, acl.perms_at(index), request),
        None => Found::Nobody,
    }
}

/// Whether the entry of a type without names holds the request.
pub(crate) fn type_holds(acl: &AclIndex, tag: Tag, request: Perms) -> bool
    requires list { IsAcl acl.now }
    requires lone { is_qualified tag None ≡ true }
    ensures { result ≡ some_holds (has_tag tag) acl.now request }
{
    of_type(acl, tag, request).is_holding()
}

/// What the named user's entry says.
pub(crate) fn of_user(acl: &AclIndex, account: &Account, request: Perms) -> Found
    requires { IsAcl acl.now }
    ensures { result ≡ found (is_for_user account.now) acl.now request }
{
    of_name(acl, Tag::User, &account.name, request)
}

fn is_in_group(account: &Account, group: &Name) -> bool
    ensures { result ≡ is_in_group account.now group.now }
{
    account.primary == *group || has_group(account.groups.as_slice(), group)
}

/// What the owning group's entry says to an account.
fn of_owning_group_to(acl: &AclIndex, account: &Account, group: &Name, request: Perms) -> Found
    requires { IsAcl acl.now }
    ensures { result ≡ found (is_for_owning_group account.now group.now) acl.now request }
{
    if is_in_group(account, group) {
        of_type(acl, Tag::GroupObj, request)
    } else {
        Found::Nobody
    }
}

/// What the entries of the account's groups by name say.
#[inline(always)]
fn of_named_groups(acl: &AclIndex, account: &Account, request: Perms) -> Found
    requires { IsAcl acl.now }
    ensures { result ≡ found (is_for_named_group account.now) acl.now request }
{
    let mut so_far = of_name(acl, Tag::Group, &account.primary, request);
    for name in account.groups.as_slice() {
        if let Found::Holding = so_far {
            return so_far;
        }
        so_far = so_far.joined(of_name(acl, Tag::Group, name, request));
    }
    so_far
}

/// What the entries of the account's groups say. Whether the owning group is one of them takes a comparison with each, so it is
/// asked only where no entry by name holds the request.
pub(crate) fn of_groups(acl: &AclIndex, account: &Account, group: &Name, request: Perms) -> Found
    requires { IsAcl acl.now }
    ensures { result ≡ found (is_for_group account.now group.now) acl.now request }
{
    let named = of_named_groups(acl, account, request);
    if let Found::Holding = named {
        return named;
    }
    named.joined(of_owning_group_to(acl, account, group, request))
}
