//! The entries of a list while it is read: kept in canonical order.
ghost use Rattle.std.specs.Prelude.{◌≡◌, ◌==◌, ◌≤◌, ◌&&◌, true, false, count_by, insert, length, IsOk, IsErrOf, IfSome, MatchOption};
ghost use Rattle.std.specs.List.{list_any};
ghost use Rattle.smallvec.specs.SmallVec.{small_vec_len};
ghost use Rattle.mon_text.specs.Stops.{Gives};
ghost use Rattle.mon_acl.specs.Entries.{has_tag, is_named, is_for, qualifier, IsCanonical};
ghost use Rattle.acl_text.specs.Refusals.{lacking};
ghost use Rattle.acl_text.specs.Reading.{put_in};
ghost use Rattle.acl_text.specs.inner.Building.{added};

use mon_acl::{AclError, ENTRIES_INLINE, Entry, Tag};
use mon_text::Stop;
use smallvec::SmallVec;
use std::cmp::Ordering;

/// How many entries for a name a list has at the most.
const MOST_NAMED_ENTRIES: usize = 100;

/// How many entries are looked at from the end before a place is sought by halves: those without names, and one more.
const FEW_BEHIND: usize = 4;

/// Puts an entry, the `n`-th of its text, at its place among the others.
pub(crate) fn add(
    entries: &mut SmallVec<Entry, ENTRIES_INLINE>,
    entry: Entry,
    n: u64,
) -> Result<(), Stop<AclError>>
    requires { IsCanonical entries.old.items }
    ensures added { Gives (λ _. entries.new.items) result (added n entry entries.old.items) }
    ensures memory { IsErrOf result Stop.Memory → IsOk (added n entry entries.old.items) × (entries.old.capacity ≤ small_vec_len entries.old) }
    ensures capacity { entries.old.capacity ≤ entries.new.capacity }
{
    let Some(place) = free_place(entries.as_slice(), &entry) else {
        return Err(Stop::Refused(AclError::Twice(n)));
    };
    if is_one_too_many(entries.as_slice(), &entry) {
        return Err(Stop::Refused(AclError::TooMany(n)));
    }
    match entries.insert(place, entry) {
        Ok(()) => Ok(()),
        Err(_) => Err(Stop::Memory),
    }
}

/// Where an entry is to stand among the others; none where one of its type and qualifier is there. It is sought from their end
/// first, since most texts have the entries of a type in order, and few others are behind them.
fn free_place(entries: &[Entry], entry: &Entry) -> Option<usize>
    requires { IsCanonical entries.now }
    ensures taken { MatchOption result (list_any (is_for entry.now.tag (qualifier entry.now)) entries.now ≡ true) (λ _. list_any (is_for entry.now.tag (qualifier entry.now)) entries.now ≡ false) }
    ensures within { IfSome result (λ i. i ≤ length entries.now) }
    ensures place { IfSome result (λ i. put_in entry.now entries.now ≡ insert entries.now i entry.now) }
{
    let mut place = entries.len();
    let lowest = entries.len().saturating_sub(FEW_BEHIND);
    while place > lowest {
        match entries[place - 1].compare(entry) {
            Ordering::Less => return Some(place),
            Ordering::Equal => return None,
            Ordering::Greater => place -= 1,
        }
    }
    searched_place(entries, entry)
}

/// The same, by halves. It stays a call, since it is seldom reached.
#[inline(never)]
fn searched_place(entries: &[Entry], entry: &Entry) -> Option<usize>
    requires { IsCanonical entries.now }
    ensures taken { MatchOption result (list_any (is_for entry.now.tag (qualifier entry.now)) entries.now ≡ true) (λ _. list_any (is_for entry.now.tag (qualifier entry.now)) entries.now ≡ false) }
    ensures within { IfSome result (λ i. i ≤ length entries.now) }
    ensures place { IfSome result (λ i. put_in entry.now entries.now ≡ insert entries.now i entry.now) }
{
    match entries.binary_search_by(|other| other.compare(entry)) {
        Ok(_) => None,
        Err(place) => Some(place),
    }
}

/// Whether an entry is the 101st of those for a name. They are counted only where the list has as many entries at all.
fn is_one_too_many(entries: &[Entry], entry: &Entry) -> bool
    ensures { result ≡ (is_named entry.now && (count_by is_named entries.now == 100)) }
{
    entry.is_named()
        && entries.len() >= MOST_NAMED_ENTRIES
        && entries.iter().filter(|other| other.is_named()).count() == MOST_NAMED_ENTRIES
}

fn has_named(entries: &[Entry]) -> bool
    ensures { result ≡ list_any is_named entries.now }
{
    entries.iter().any(|entry| entry.is_named())
}

fn has(entries: &[Entry], tag: Tag) -> bool
    ensures { result ≡ list_any (has_tag tag) entries.now }
{
    entries.iter().any(|entry| entry.tag == tag)
}

/// What the whole list lacks.
pub(crate) fn lacking(entries: &[Entry]) -> Option<AclError>
    ensures { result ≡ lacking entries.now }
{
    if !has(entries, Tag::UserObj) {
        Some(AclError::Missing(Tag::UserObj))
    } else if !has(entries, Tag::GroupObj) {
        Some(AclError::Missing(Tag::GroupObj))
    } else if !has(entries, Tag::Other) {
        Some(AclError::Missing(Tag::Other))
    } else if has_named(entries) && !has(entries, Tag::Mask) {
        Some(AclError::NoMask)
    } else {
        None
    }
}
