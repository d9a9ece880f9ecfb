//! What a search among entries reads: a key of each, side by side, and chains of the entries whose keys fall into one bucket, so
//! that an entry is found by its type and its name with one or two comparisons of eight bytes.
ghost use Rattle.std.specs.Prelude.{◌≡◌, ◌+◌, ◌*◌, ◌≤◌, ◌<◌, All, IfOk, IsOk, length, map, [], nat_eq};
ghost use Rattle.std.specs.Cmp.Lexicographic.{pointwise};
ghost use Rattle.mon_text.specs.Names.{head_of};
ghost use Rattle.mon_acl.specs.Entries.{rank, qualifier, is_for, IsEntry, IsAcl, IsIndexOf};
ghost use Rattle.mon_acl.specs.inner.Keys.{key_of, key_in, keys_of, bucket_of, IsIndexOfKey};
ghost use Rattle.mon_acl.specs.inner.Chains.{IsChained};

use crate::entries::{Entry, Tag};
use crate::list::ENTRIES_INLINE;
use mon_text::Name;
use smallvec::SmallVec;
use std::alloc::{AllocError, Global};

/// How many entries a list has at the most: 100 for names, and one of each of the other types.
pub(crate) const MOST_ENTRIES: usize = 104;

/// The longest qualifier that a key holds whole, in characters.
const MOST_IN_KEY: usize = 7;

/// 2^64 over the golden ratio: each bit of a key counts in the highest bits of its product with this.
const MULTIPLIER: u64 = 11_400_714_819_323_198_485;

/// 2^57: a number over it has seven bits.
const SEVEN_BITS: u64 = 144_115_188_075_855_872;

/// How many buckets there are.
const BUCKETS: usize = 128;

/// Entries chained by the buckets of their keys. A place is an index and one more; 0 is no place.
#[derive(Clone, Copy)]
pub(crate) struct Chains {
    /// The last place of each bucket.
    first: [u8; BUCKETS],
    /// For each entry the place before it in its bucket.
    next: [u8; MOST_ENTRIES],
}

/// The head of an entry's name; 0 where it has none.
fn head_of(entry: &Entry) -> u64
    ensures { result ≡ head_of (qualifier entry.now) }
{
    match &entry.name {
        Some(name) => name.head(),
        None => 0,
    }
}

/// The key of a type and a name, by the name's head. A head is below 2^61, since no name is longer than 31 characters.
#[tactic(auto, using(crate::proofs::Keyed::ranks_small))]
fn key_of(head: u64, tag: Tag) -> u64
    requires { head < 2305843009213693952 }
    ensures { result ≡ head * 8 + rank tag }
{
    head * 8 + u64::from(tag.rank())
}

/// The key of an entry.
#[tactic(auto, using(crate::proofs::Keyed::entry_fits))]
fn key_in(entry: &Entry) -> u64
    requires { IsEntry entry.now }
    ensures { result ≡ key_in entry.now }
{
    key_of(head_of(entry), entry.tag)
}

/// The bucket of a key.
fn bucket_of(key: u64) -> usize
    ensures value { result ≡ bucket_of key }
    ensures few { result < 128 }
{
    (key.wrapping_mul(MULTIPLIER) / SEVEN_BITS) as usize
}

/// The keys of entries, in their order.
///
/// # Errors
///
/// Where a growth was refused; four entries take no memory.
pub(crate) fn keys_of(
    alloc: Global,
    entries: &[Entry],
) -> Result<SmallVec<u64, ENTRIES_INLINE>, AllocError>
    requires { All IsEntry entries.now }
    ensures keys { IfOk result (λ keys. keys.items ≡ keys_of entries.now) }
    ensures few { length entries.now ≤ 4 → IsOk result }
{
    let mut keys = SmallVec::with_capacity(alloc, entries.len())?;
    for entry in entries {
        keys.push_reserved(key_in(entry));
    }
    Ok(keys)
}

/// The chains of keys.
pub(crate) fn chains_of(keys: &[u64]) -> Chains
    requires { length keys.now ≤ 104 }
    ensures { IsChained (map bucket_of keys.now) (length keys.now) result.first result.next }
{
    let mut first = [0; BUCKETS];
    let mut next = [0; MOST_ENTRIES];
    for (i, key) in keys.iter().enumerate() {
        let bucket = bucket_of(*key);
        next[i] = first[bucket];
        first[bucket] = i as u8 + 1;
    }
    Chains { first, next }
}

/// Whether an entry has this name. Names are compared as words of the machine.
#[tactic(auto, using(crate::proofs::Keyed::nameless))]
fn is_named(entry: &Entry, name: &Name) -> bool
    ensures { result ≡ pointwise nat_eq (qualifier entry.now) name.now }
{
    match &entry.name {
        Some(own) => *own == *name,
        // No name is empty.
        None => name.as_bytes().is_empty(),
    }
}

/// Whether an entry is that of a type for a name, by its key and theirs.
fn is_for(found: u64, entry: &Entry, key: u64, tag: Tag, name: &Name) -> bool
    requires found { found ≡ key_in entry.now }
    requires key { key ≡ key_of tag name.now }
    ensures { result ≡ is_for tag name.now entry.now }
{
    found == key && is_named(entry, name)
}

/// The index of a key, if it is one of these: only those of its bucket are looked at.
#[inline(always)]
fn index_of_key(chains: &Chains, keys: &[u64], key: u64) -> Option<usize>
    requires few { length keys.now ≤ 104 }
    requires chains { IsChained (map bucket_of keys.now) (length keys.now) chains.now.first chains.now.next }
    ensures { IsIndexOfKey key keys.now result }
{
    let mut place = chains.first[bucket_of(key)];
    while place > 0 {
        let index = place as usize - 1;
        if keys[index] == key {
            return Some(index);
        }
        place = chains.next[index];
    }
    None
}

/// The index of the entry of a type for a name, if there is one, by their key. Each entry of that key is read, so this is for a
/// name that is longer than a key holds. It stays a call, since few are.
#[inline(never)]
fn index_of_long(
    chains: &Chains,
    keys: &[u64],
    entries: &[Entry],
    key: u64,
    tag: Tag,
    name: &Name,
) -> Option<usize>
    requires list { IsAcl entries.now }
    requires chains { IsChained (map bucket_of keys.now) (length keys.now) chains.now.first chains.now.next }
    requires keys { keys.now ≡ keys_of entries.now }
    requires key { key ≡ key_of tag name.now }
    ensures { IsIndexOf tag name.now entries.now result }
{
    let mut place = chains.first[bucket_of(key)];
    while place > 0 {
        let index = place as usize - 1;
        if is_for(keys[index], &entries[index], key, tag, name) {
            return Some(index);
        }
        place = chains.next[index];
    }
    None
}

/// The index of the entry of a type for a name, if there is one.
#[inline(always)]
pub(crate) fn index_of_name(
    chains: &Chains,
    keys: &[u64],
    entries: &[Entry],
    tag: Tag,
    name: &Name,
) -> Option<usize>
    requires list { IsAcl entries.now }
    requires chains { IsChained (map bucket_of keys.now) (length keys.now) chains.now.first chains.now.next }
    requires keys { keys.now ≡ keys_of entries.now }
    ensures { IsIndexOf tag name.now entries.now result }
{
    let text = name.as_bytes();
    let key = key_of(name.head(), tag);
    if text.len() <= MOST_IN_KEY {
        index_of_key(chains, keys, key)
    } else {
        index_of_long(chains, keys, entries, key, tag, name)
    }
}

/// The index of the entry of a type without names, if there is one.
#[inline(always)]
pub(crate) fn index_of_type(
    chains: &Chains,
    keys: &[u64],
    entries: &[Entry],
    tag: Tag,
) -> Option<usize>
    requires list { IsAcl entries.now }
    requires chains { IsChained (map bucket_of keys.now) (length keys.now) chains.now.first chains.now.next }
    requires keys { keys.now ≡ keys_of entries.now }
    ensures { IsIndexOf tag [] entries.now result }
{
    index_of_key(chains, keys, key_of(0, tag))
}
