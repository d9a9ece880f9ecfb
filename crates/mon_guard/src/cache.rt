//! Decisions that are kept from one request to the next.
ghost use Rattle.std.specs.Prelude.{◌≡◌, ◌≤◌, [], IsTrue, IfSome, length, take};
ghost use Rattle.mon_acl.specs.Permissions.{is_one};
ghost use Rattle.mon_guard.specs.Deciding.{decision_on};

use indexmap::IndexMap;
use mon_access::{Account, CompiledAcl, Decision, check, compile};
use mon_acl::Perms;
use mon_catalogue::{Catalogue, DataSet};
use mon_text::Name;
use std::alloc::Global;
use std::marker::Model;

/// How many rows are kept at the most.
pub const MOST_CACHED_DECISIONS: usize = 1_000;

/// What was decided of an account on the data set of a name, for each permission by itself.
#[derive(Drop)]
pub struct CachedDecision {
    pub account: Account,
    pub set: Name,
    pub ready: CompiledAcl,
}

/// Rows, at most 1,000, found by the names of their account and their set. A contract sees them as a list, in the order in which
/// they were added.
#[derive(Drop)]
pub struct DecisionCache {
    by_names: IndexMap<(Name, Name), CachedDecision>,
    last_used: LastUsed,
}

/// Where a row stands that was used, and where its set stood in the catalogue. No contract sees this: what stands there is
/// compared before it is used.
#[derive(Clone, Copy)]
pub(crate) struct Used {
    pub row: usize,
    pub set: usize,
}

/// The two rows that were used last, so that a job that copies from set to set hashes no names.
#[derive(Clone, Copy)]
struct LastUsed {
    last: Used,
    before: Used,
}

impl Model for DecisionCache {
    ghost use Rattle.std.specs.Prelude.{List, length, ◌≤◌};
    ghost use Rattle.std.specs.Map.{values_of};
    ghost use Rattle.mon_guard.specs.declared.cache.CachedDecision.{CachedDecision};

    ghost Value = { List CachedDecision };

    ghost view = { λ r. values_of r.by_names.entries };

    ghost invariant = { λ r. length (values_of r.by_names.entries) ≤ 1000 };
}

/// What was decided of a request, and whether a row is to be used or kept for the next one like it.
#[derive(Clone, Copy)]
pub(crate) struct Verdict {
    pub decision: Decision,
    pub next: Next,
}

/// What makes the next request quick: nothing, where the row is one of the two used last; else that this one is used; else that
/// one is kept, of the set that stands there.
#[derive(Clone, Copy)]
pub(crate) enum Next {
    Nothing,
    Use(Used),
    Keep(usize),
}

/// What a row says, if there is one, and where its set stood.
#[derive(Clone, Copy)]
pub(crate) struct Lookup<'a> {
    pub ready: Option<&'a CompiledAcl>,
    pub set: usize,
    pub next: Next,
}

impl LastUsed {
    // A row was used that was none of the two.
    fn put(&mut self, used: Used) {
        self.before = self.last;
        self.last = used;
    }
}

impl DecisionCache {
    ghost use Rattle.mon_guard.specs.Cache.{cache_beside};
    ghost use Rattle.mon_guard.specs.inner.Keeping.{Says, FitOn, MayKeep};

    // No rows.
    pub(crate) fn new(alloc: Global) -> DecisionCache
        ensures { result ≡ [] }
    {
        DecisionCache {
            by_names: IndexMap::new(alloc),
            last_used: LastUsed {
                last: Used { row: 0, set: 0 },
                before: Used { row: 0, set: 0 },
            },
        }
    }

    // How many rows there are.
    pub(crate) fn len(&self) -> usize
        ensures value { result ≡ length self.now }
        ensures at_most { length self.now ≤ 1000 }
    {
        self.by_names.len()
    }

    // What the row at a place says, where it is of the account and of the set of a name.
    #[inline(always)]
    fn at(&self, place: usize, account: &Account, name: &Name) -> Option<&CompiledAcl>
        ensures { IfSome result (λ ready. Says self.now account.now name.now ready.now) }
    {
        let (_, row) = self.by_names.get_index(place)?;
        if row.set == *name && row.account.is(account) {
            Some(&row.ready)
        } else {
            None
        }
    }

    // What is kept of the account on the set of a name, where it is one of the two rows used last.
    #[inline(always)]
    pub(crate) fn cached(&self, account: &Account, name: &Name) -> Option<Lookup<'_>>
        ensures { IfSome result (λ lookup. IfSome lookup.ready (λ ready. Says self.now account.now name.now ready.now)) }
    {
        let LastUsed { last, before } = self.last_used;
        if let Some(ready) = self.at(last.row, account, name) {
            return Some(Lookup {
                ready: Some(ready),
                set: last.set,
                next: Next::Nothing,
            });
        }
        match self.at(before.row, account, name) {
            Some(ready) => Some(Lookup {
                ready: Some(ready),
                set: before.set,
                next: Next::Nothing,
            }),
            None => None,
        }
    }

    // What is kept of the account on the set of a name, wherever it stands. A row of an account of this name with other groups is
    // passed over.
    #[inline(never)]
    fn found(&self, account: &Account, catalogue: &Catalogue, name: &Name) -> Lookup<'_>
        ensures { IfSome result.ready (λ ready. Says self.now account.now name.now ready.now) }
    {
        let set = catalogue.place_of(name).unwrap_or(0);
        let key = (account.name.copy(), name.copy());
        match self.by_names.get_index_of(&key) {
            Some(row) => Lookup {
                ready: self.at(row, account, name),
                set,
                next: Next::Use(Used { row, set }),
            },
            None => Lookup {
                ready: None,
                set,
                next: Next::Keep(set),
            },
        }
    }

    // The same, where the two rows used last are looked at first.
    #[inline(always)]
    pub(crate) fn lookup(&self, account: &Account, catalogue: &Catalogue, name: &Name) -> Lookup<'_>
        ensures { IfSome result.ready (λ ready. Says self.now account.now name.now ready.now) }
    {
        match self.cached(account, name) {
            Some(lookup) => lookup,
            None => self.found(account, catalogue, name),
        }
    }

    // The access check on the set of a name, for a request of exactly one permission: as a row says, or else made now.
    #[inline(always)]
    pub(crate) fn decide(
        &self,
        lookup: Lookup<'_>,
        account: &Account,
        name: &Name,
        set: &DataSet,
        request: Perms,
    ) -> Verdict
        requires lookup { IfSome lookup.ready (λ ready. Says self.now account.now name.now ready.now) }
        requires one { IsTrue (is_one request) }
        requires fit { FitOn name.now set.now self.now }
        ensures { result.decision ≡ decision_on account.now set.now request }
    {
        let decision = match lookup.ready {
            Some(ready) => ready.decide(request),
            None => check(account, &set.owner, &set.group, &set.acl, request),
        };
        Verdict {
            decision,
            next: lookup.next,
        }
    }

    // Makes the next request like this one quick: the row that told it is one of the two used last. Where there was none, one
    // is kept.
    #[inline(always)]
    pub(crate) fn remember(&mut self, next: Next, account: &Account, name: &Name, set: &DataSet)
        ensures { MayKeep account.now name.now set.now self.old self.new }
    {
        match next {
            Next::Nothing => {}
            Next::Use(used) => self.last_used.put(used),
            Next::Keep(place) => self.keep(account, name, set, place),
        }
    }

    // Keeps a row more, where there is room and memory for it.
    #[inline(never)]
    fn keep(&mut self, account: &Account, name: &Name, set: &DataSet, place: usize)
        ensures { MayKeep account.now name.now set.now self.old self.new }
    {
        let key = (account.name.copy(), name.copy());
        if self.by_names.len() >= MOST_CACHED_DECISIONS || self.by_names.contains_key(&key) {
            return;
        }
        if let Ok(account) = account.copy(*self.by_names.allocator()) {
            let ready = compile(&account, &set.owner, &set.group, &set.acl);
            let set = name.copy();
            let row = CachedDecision {
                account,
                set,
                ready,
            };
            self.last_used.put(Used {
                row: self.by_names.len(),
                set: place,
            });
            // A refused growth keeps no row. Dropped by name, the answer leaves one way on, and not one for each of its cases.
            let added = self.by_names.insert(key, row);
            drop(added);
        }
    }

    // Drops the rows of a name.
    pub(crate) fn forget(&mut self, name: &Name)
        ensures { self.new ≡ cache_beside name.now self.old }
    {
        self.by_names.retain(|_, row| row.set != *name);
    }

    // Drops all rows but the first ones, so many.
    pub(crate) fn keep_first(&mut self, count: usize)
        ensures { self.new ≡ take count self.old }
    {
        self.by_names.truncate(count);
    }
}
