//! The entry that grants: of those by which the case that applies may grant, the first that holds the whole request.
ghost use Rattle.std.specs.Prelude.{◌≡◌, ◌&&◌, position, bytes_eq};
ghost use Rattle.std.specs.List.{list_any};
ghost use Rattle.mon_acl.specs.declared.entries.Tag.TheVariants as tags;
ghost use Rattle.mon_acl.specs.Entries.{has_tag};
ghost use Rattle.mon_acl.specs.Permissions.{holds};
ghost use Rattle.mon_access.specs.Matches.{is_in_group, is_for_user, is_for_named_group, is_for_group};
ghost use Rattle.mon_access.specs.AccessCheck.{case_of};
ghost use Rattle.mon_access.specs.Granting.{holder, granting};

use crate::access::{Decision, check};
use crate::account::Account;
use mon_acl::{Acl, Entry, Perms, Tag};
use mon_text::Name;

/// Which entry of the list grants an account what is requested of a data set, by the set's owner, its group and its permission list,
/// if it is granted: its index in canonical order, as that of `Acl::entry`. It takes no memory.
///
/// The access check is `check`. That is quicker: here the entries are gone over one by one.
pub fn granting(
    account: &Account,
    owner: &Name,
    group: &Name,
    acl: &Acl,
    request: Perms,
) -> Option<usize>
    ensures { result ≡ granting account.now owner.now group.now acl.now request }
{
    match check(account, owner, group, acl, request) {
        Decision::Granted => holder(account, owner, group, acl.entries(), request),
        Decision::Denied(_) => None,
    }
}

// Where the first entry stands that holds the request, of those by which the account's case may grant.
fn holder(
    account: &Account,
    owner: &Name,
    group: &Name,
    entries: &[Entry],
    request: Perms,
) -> Option<usize>
    ensures { result ≡ holder (case_of account.now owner.now group.now entries.now) account.now group.now entries.now request }
{
    if account.name == *owner {
        holder_of_type(entries, Tag::UserObj, request)
    } else if names_account(account, entries) {
        holder_of_user(account, entries, request)
    } else if names_groups(account, group, entries) {
        // Without a mask the owning group's entry grants, and no other.
        if has_mask(entries) {
            holder_of_group(account, group, entries, request)
        } else {
            holder_of_type(entries, Tag::GroupObj, request)
        }
    } else {
        holder_of_type(entries, Tag::Other, request)
    }
}

// Whether an entry names the account.
fn names_account(account: &Account, entries: &[Entry]) -> bool
    ensures { result ≡ list_any (is_for_user account.now) entries.now }
{
    entries.iter().any(|e| is_for_user(account, e))
}

// Whether an entry is of one of the account's groups.
fn names_groups(account: &Account, group: &Name, entries: &[Entry]) -> bool
    ensures { result ≡ list_any (is_for_group account.now group.now) entries.now }
{
    entries.iter().any(|e| is_for_group(account, group, e))
}

fn has_mask(entries: &[Entry]) -> bool
    ensures { result ≡ list_any (has_tag tags.Mask) entries.now }
{
    entries.iter().any(|e| e.tag == Tag::Mask)
}

// Of the named user's entries.
fn holder_of_user(account: &Account, entries: &[Entry], request: Perms) -> Option<usize>
    ensures { result ≡ position (λ e. is_for_user account.now e && holds e.perms request) entries.now }
{
    entries
        .iter()
        .position(|e| is_for_user(account, e) && e.perms.contains(request))
}

// Of the entries of the account's groups.
fn holder_of_group(
    account: &Account,
    group: &Name,
    entries: &[Entry],
    request: Perms,
) -> Option<usize>
    ensures { result ≡ position (λ e. is_for_group account.now group.now e && holds e.perms request) entries.now }
{
    entries.iter().position(|e| is_for_group(account, group, e) && e.perms.contains(request))
}

// Of the entries of a type.
fn holder_of_type(entries: &[Entry], tag: Tag, request: Perms) -> Option<usize>
    ensures { result ≡ position (λ e. has_tag tag e && holds e.perms request) entries.now }
{
    entries
        .iter()
        .position(|e| e.tag == tag && e.perms.contains(request))
}

// The named user's entry.
fn is_for_user(account: &Account, entry: &Entry) -> bool
    ensures { result ≡ is_for_user account.now entry.now }
{
    match &entry.name {
        Some(name) => entry.tag == Tag::User && account.name == *name,
        None => false,
    }
}

// The owning group's entry, or that of a group by name, where the group is one of the account's.
fn is_for_group(account: &Account, group: &Name, entry: &Entry) -> bool
    ensures { result ≡ is_for_group account.now group.now entry.now }
{
    match entry.tag {
        Tag::GroupObj => is_in_group(account, group),
        _ => is_for_named_group(account, entry),
    }
}

fn is_for_named_group(account: &Account, entry: &Entry) -> bool
    ensures { result ≡ is_for_named_group account.now entry.now }
{
    match &entry.name {
        Some(name) => entry.tag == Tag::Group && is_in_group(account, name),
        None => false,
    }
}

fn is_in_group(account: &Account, group: &Name) -> bool
    ensures { result ≡ is_in_group account.now group.now }
{
    account.primary == *group || is_one_of(account.groups.as_slice(), group)
}

// The access check's own look, that of `account`, stays part of it as long as nothing else takes that.
fn is_one_of(groups: &[Name], group: &Name) -> bool
    ensures { result ≡ list_any (bytes_eq group.now) groups.now }
{
    groups.iter().any(|held| *group == *held)
}
