//! Some data sets of a catalogue, without a copy of them.
ghost use Rattle.std.specs.Prelude.{◌≡◌, ◌+◌, drop, IfOk, OnOk};
ghost use Rattle.std.specs.Option.{option_map};
ghost use Rattle.std.specs.Map.Iter.{deref_pair};
ghost use Rattle.ledger_sets.specs.Parts.{has, those_of, with_first, IsCopied};

use crate::NoChange;
use crate::applying::put_set;
use mon_catalogue::{Catalogue, DataSet};
use mon_text::{Name, Stop};
use std::alloc::Global;

/// Which data sets of a catalogue.
#[derive(Drop)]
pub enum Which {
    /// All that there are.
    All,
    /// Those of these names, if they are there.
    Named(Vec<Name>),
}

impl Which {
    /// Whether a data set of this name is one of them.
    pub fn has(&self, name: &Name) -> bool
        ensures { result ≡ has self.now name.now }
    {
        match self {
            Which::All => true,
            Which::Named(names) => names.contains(name),
        }
    }
}

/// Some data sets of a catalogue, in the order that they have there.
#[derive(Clone, Copy)]
pub struct Part<'a> {
    /// The catalogue.
    pub catalogue: &'a Catalogue,
    /// Which of its data sets.
    pub which: &'a Which,
}

impl<'a> Part<'a> {
    // The data set at this place of the catalogue, if it is one of them.
    pub(crate) fn at(self, place: usize) -> Option<(&'a Name, &'a DataSet)>
        ensures { those_of self.entry.which.now (drop place self.entry.catalogue.now)
            ≡ with_first (option_map deref_pair result) (those_of self.entry.which.now (drop (place + 1) self.entry.catalogue.now)) }
    {
        match self.catalogue.at(place) {
            Some((name, set)) if self.which.has(name) => Some((name, set)),
            _ => None,
        }
    }

    /// These data sets as a catalogue of their own.
    ///
    /// # Errors
    ///
    /// Where a growth was refused.
    pub fn copy(self, alloc: Global) -> Result<Catalogue, Stop<NoChange>>
        ensures { IfOk result (λ some. some ≡ those_of self.entry.which.now self.entry.catalogue.now) }
    {
        let mut some = Catalogue::new(alloc);
        for place in 0..self.catalogue.len() {
            self.put_at(alloc, place, &mut some)?;
        }
        Ok(some)
    }

    // The data set at this place behind those before it, if it is one of them.
    fn put_at(self, alloc: Global, place: usize, some: &mut Catalogue) -> Result<(), Stop<NoChange>>
        ensures { OnOk result (IsCopied self.entry.which.now self.entry.catalogue.now place some.old
            → IsCopied self.entry.which.now self.entry.catalogue.now (place + 1) some.new) }
    {
        let _count = self.catalogue.len();
        match self.at(place) {
            Some((name, set)) => put_set(alloc, name.copy(), set.copy(alloc)?, some),
            None => Ok(()),
        }
    }
}
