//! Permission lists.
ghost use Rattle.std.specs.Prelude.{◌≡◌, ◌≤◌, ◌<◌, [], HoldsAt, length, IfOk, IsErr, slice_get, option_copied};
ghost use Rattle.mon_acl.specs.Entries.{IsAcl, IsIndexOf, mask_of};

use crate::entries::{Entry, Perms, Tag};
use crate::keys::{Chains, chains_of, index_of_name, index_of_type, keys_of};
use mon_text::Name;
use smallvec::SmallVec;
use std::alloc::{AllocError, Global};
use std::marker::Model;

/// How many entries lie in the list itself: as many as a list without named entries has.
pub const ENTRIES_INLINE: usize = 4;

/// A permission list: always valid.
///
/// A contract sees it as the list of its entries in canonical order.
#[derive(Drop)]
pub struct Acl {
    entries: SmallVec<Entry, ENTRIES_INLINE>,
    /// Those of the entries, at the same indexes.
    keys: SmallVec<u64, ENTRIES_INLINE>,
    chains: Chains,
}

impl Model for Acl {
    ghost use Rattle.std.specs.Prelude.{◌≡◌, List, map, length};
    ghost use Rattle.mon_acl.specs.declared.entries.Entry.{Entry};
    ghost use Rattle.mon_acl.specs.Entries.{IsAcl};
    ghost use Rattle.mon_acl.specs.inner.Keys.{keys_of, bucket_of};
    ghost use Rattle.mon_acl.specs.inner.Chains.{IsChained};

    ghost Value = { List Entry };

    ghost view = { λ a. a.entries.items };

    ghost invariant = { λ a. IsAcl a.entries.items × (a.keys.items ≡ keys_of a.entries.items) × IsChained (map bucket_of a.keys.items) (length a.keys.items) a.chains.first a.chains.next };
}

impl Acl {
    /// The list of these entries.
    ///
    /// # Errors
    ///
    /// Where a growth was refused; four entries take no memory.
    pub fn new(
        alloc: Global,
        mut entries: SmallVec<Entry, ENTRIES_INLINE>,
    ) -> Result<Acl, AllocError>
        requires { IsAcl entries.items }
        ensures list { IfOk result (λ acl. acl ≡ entries.items) }
        ensures memory { IsErr result → 5 ≤ length entries.items }
    {
        entries.shrink_to_fit();
        let keys = keys_of(alloc, entries.as_slice())?;
        let chains = chains_of(keys.as_slice());
        Ok(Acl {
            entries,
            keys,
            chains,
        })
    }

    /// The permissions of the mask, where there is one.
    pub fn mask(&self) -> Option<Perms>
        ensures { result ≡ mask_of self.now }
    {
        let mask = self.entries().iter().find(|entry| entry.tag == Tag::Mask)?;
        Some(mask.perms)
    }

    /// The entries in canonical order.
    pub fn entries(&self) -> &[Entry]
        ensures value { result.now ≡ self.now }
        ensures valid { IsAcl self.now }
    {
        self.entries.as_slice()
    }

    /// The number of entries.
    pub fn len(&self) -> usize
        ensures value { result ≡ length self.now }
        ensures valid { IsAcl self.now }
    {
        self.entries.len()
    }

    /// The entry at an index of the canonical order, from 0.
    pub fn entry(&self, i: usize) -> Option<&Entry>
        ensures { option_copied result ≡ slice_get self.now i }
    {
        self.entries().get(i)
    }

    /// The list for searches.
    #[inline(always)]
    pub fn index(&self) -> AclIndex<'_>
        ensures value { result ≡ self.now }
        ensures valid { IsAcl self.now }
    {
        AclIndex {
            entries: self.entries.as_slice(),
            keys: self.keys.as_slice(),
            chains: &self.chains,
        }
    }

    /// The same list once more.
    ///
    /// # Errors
    ///
    /// Where a growth was refused.
    pub fn copy(&self, alloc: Global) -> Result<Acl, AllocError>
        ensures { IfOk result (λ copy. copy ≡ self.now) }
    {
        let mut entries = SmallVec::new(alloc);
        entries.reserve(self.entries.len())?;
        for entry in self.entries() {
            entries.push(entry.copy())?;
        }
        let keys = SmallVec::from_slice(alloc, self.keys.as_slice())?;
        Ok(Acl {
            entries,
            keys,
            chains: self.chains,
        })
    }
}

/// A permission list as searches read it: where its entries and their keys stand is looked at once for all of them.
#[derive(Drop)]
pub struct AclIndex<'a> {
    entries: &'a [Entry],
    keys: &'a [u64],
    chains: &'a Chains,
}

impl<'a> Model for AclIndex<'a> {
    ghost use Rattle.std.specs.Prelude.{◌≡◌, List, map, length};
    ghost use Rattle.mon_acl.specs.declared.entries.Entry.{Entry};
    ghost use Rattle.mon_acl.specs.Entries.{IsAcl};
    ghost use Rattle.mon_acl.specs.inner.Keys.{keys_of, bucket_of};
    ghost use Rattle.mon_acl.specs.inner.Chains.{IsChained};

    ghost Value = { List Entry };

    ghost view = { λ a. a.entries.now };

    ghost invariant = { λ a. IsAcl a.entries.now × (a.keys.now ≡ keys_of a.entries.now) × IsChained (map bucket_of a.keys.now) (length a.keys.now) a.chains.now.first a.chains.now.next };
}

impl AclIndex<'_> {
    // The entries in canonical order.
    fn entries(&self) -> &[Entry]
        ensures { result.now ≡ self.now }
    {
        self.entries
    }

    /// The index of the entry of a type for a name, if there is one. It takes no memory.
    #[inline(always)]
    pub fn index_of(&self, tag: Tag, name: &Name) -> Option<usize>
        ensures { IsIndexOf tag name.now self.now result }
    {
        index_of_name(self.chains, self.keys, self.entries, tag, name)
    }

    /// The index of the entry of a type without names, if there is one. It takes no memory.
    #[inline(always)]
    pub fn index_of_type(&self, tag: Tag) -> Option<usize>
        ensures { IsIndexOf tag [] self.now result }
    {
        index_of_type(self.chains, self.keys, self.entries, tag)
    }

    /// The permissions of the entry at an index.
    pub fn perms_at(&self, index: usize) -> Perms
        requires { index < length self.now }
        ensures { HoldsAt (λ e. e.perms ≡ result) self.now index }
    {
        self.entries()[index].perms
    }
}
