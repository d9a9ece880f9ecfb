//! The catalogue: data sets in the order of their creation, found by name.
ghost use Rattle.std.specs.Prelude.{◌≡◌, ◌==◌, ◌<◌, ◌↔◌, [], ◌∷◌, ◌++◌, length, nat_eq, position, slice_get, Ok, OnOk, OnErr, IfOk, IfSome, IsOk, is_some, IsSome, None};
ghost use Rattle.std.specs.Borrow.{sem};
ghost use Rattle.std.specs.Option.{option_copied, option_copied_mut, option_map};
ghost use Rattle.std.specs.Result.{result_ok};
ghost use Rattle.std.specs.Map.{keys_of, values_of};
ghost use Rattle.std.specs.Map.Iter.{deref_pair};
ghost use Rattle.std.specs.Cmp.Lexicographic.{pointwise};
ghost use Rattle.std.specs.Str.Lines.{lines};
ghost use Rattle.mon_text.specs.Stops.{refused_as};
ghost use Rattle.mon_device.specs.Putting.{Puts};
ghost use Rattle.mon_catalogue.specs.declared.version.Version.TheVariants.{Two};
ghost use Rattle.mon_catalogue.specs.Reading.{catalogue_of};
ghost use Rattle.mon_catalogue.specs.Stored.{IsStored, ArePrintable};
ghost use Rattle.mon_catalogue.specs.Sets.{find_set, empty_set, create_refusal, NamesDiffer, IsCatalogue};
ghost use Rattle.mon_catalogue.specs.Changes.{without_set, with_acl};
ghost use Rattle.mon_catalogue.specs.Lending.{LendsSet};
ghost use Rattle.mon_catalogue.specs.Text.{catalogue_text, catalogue_lines};

use crate::data_set::{DataSet, Records};
use crate::mode::Mode;
use crate::text::{self, print_set};
use indexmap::IndexMap;
use mon_acl::Acl;
use mon_device::Sink;
use mon_text::{Name, Stop};
use std::alloc::{AllocError, Global};
use std::marker::Model;
use std::mem;
use thiserror::Error;

/// How many data sets a catalogue has at the most.
pub const MOST_SETS: usize = 1_000;

/// Data sets in the order of their creation, no two of one name: at most 1,000.
///
/// A contract sees the catalogue as the list of its named data sets.
#[derive(Drop)]
pub struct Catalogue {
    sets: IndexMap<Name, DataSet>,
}

impl Model for Catalogue {
    ghost use Rattle.std.specs.Prelude.{ℕ, List};
    ghost use Rattle.mon_catalogue.specs.Sets.{Sets, IsCatalogue};

    ghost Value = { Sets };

    ghost view = { λ c. c.sets.entries };

    ghost invariant = { λ c. IsCatalogue c.sets.entries };
}

/// Why a data set could not be created.
#[derive(Clone, Copy, Debug, Error)]
pub enum CreateError {
    /// The catalogue has a set of this name.
    #[error("K1 NAME TAKEN")]
    NameTaken,
    /// The catalogue has 1,000 sets.
    #[error("K4 CATALOGUE FULL")]
    CatalogueFull,
}

/// The catalogue has no set of the name.
#[derive(Clone, Copy, Debug, Error)]
#[error("K2 NO SET")]
pub struct NoSet;

impl Catalogue {
    /// A catalogue with no set.
    pub fn new(alloc: Global) -> Catalogue
        ensures { result ≡ [] }
    {
        Catalogue {
            sets: IndexMap::new(alloc),
        }
    }

    /// How many sets there are.
    pub fn len(&self) -> usize
        ensures value { result ≡ length self.now }
        ensures sound { IsCatalogue self.now }
    {
        self.sets.len()
    }

    /// Whether there is no set.
    pub fn is_empty(&self) -> bool
        ensures { result ≡ (length self.now == 0) }
    {
        self.sets.is_empty()
    }

    /// The set at an index of the order of creation, from 0, with its name.
    pub fn at(&self, index: usize) -> Option<(&Name, &DataSet)>
        ensures { option_map deref_pair result ≡ slice_get self.now index }
    {
        self.sets.get_index(index)
    }

    /// The set of a name. It takes no memory, and the time does not grow with the catalogue.
    pub fn find(&self, name: &Name) -> Option<&DataSet>
        ensures { option_copied result ≡ find_set name.now self.now }
    {
        self.sets.get(name)
    }

    /// Where the set of a name stands in the order of creation, from 0. It takes no memory.
    pub fn place_of(&self, name: &Name) -> Option<usize>
        ensures { result ≡ position (pointwise nat_eq name.now) (keys_of self.now) }
    {
        self.sets.get_index_of(name)
    }

    /// The set of a name, which is looked for at a place first: where it stands there, no name is hashed. It takes no memory.
    #[inline(always)]
    pub fn find_near(&self, place: usize, name: &Name) -> Option<&DataSet>
        ensures { option_copied result ≡ find_set name.now self.now }
    {
        match self.sets.get_index(place) {
            Some((key, set)) => {
                if key == name {
                    Some(set)
                } else {
                    self.find(name)
                }
            }
            None => self.find(name),
        }
    }

    /// Creates a set with no records, and puts it last.
    ///
    /// # Errors
    ///
    /// `NameTaken` where there is a set of this name, else `CatalogueFull` where there are 1,000 sets;
    /// `Memory` where a growth was refused. The catalogue is then unchanged.
    pub fn create(
        &mut self,
        name: Name,
        owner: Name,
        group: Name,
        mode: Mode,
        acl: Acl,
    ) -> Result<(), Stop<CreateError>>
        ensures created { OnOk result (self.new ≡ self.old ++ (name, empty_set owner group mode acl) ∷ []) }
        ensures refused { refused_as result ≡ create_refusal name self.old }
        ensures unchanged { OnErr result (self.new ≡ self.old) }
    {
        if self.sets.contains_key(&name) {
            return Err(Stop::Refused(CreateError::NameTaken));
        }
        if self.len() >= MOST_SETS {
            return Err(Stop::Refused(CreateError::CatalogueFull));
        }
        let records = Records::new(self.allocator());
        let set = DataSet {
            owner,
            group,
            mode,
            acl,
            records,
        };
        match self.add(name, set) {
            Ok(()) => Ok(()),
            Err(_) => Err(Stop::Memory),
        }
    }

    /// The set of a name, to be changed. All others stay as they are, and so do the names and their order. It takes no
    /// memory, and the time does not grow with the catalogue.
    #[tactic(auto, using(crate::proofs::Changing::with_value_there))]
    pub fn find_mut(&mut self, name: &Name) -> Option<&mut DataSet>
        ensures* lends { sem 𝓛 (LendsSet self.entry name.now result) }
        ensures found { option_copied_mut result ≡ find_set name.now self.old }
    {
        let place = self.sets.get_index_of(name)?;
        self.sets.get_index_mut(place)
    }

    /// The same, where it is looked for at a place first.
    #[inline(always)]
    #[tactic(auto, using(crate::proofs::Changing::with_value_there))]
    pub fn find_mut_near(&mut self, place: usize, name: &Name) -> Option<&mut DataSet>
        ensures* lends { sem 𝓛 (LendsSet self.entry name.now result) }
        ensures found { option_copied_mut result ≡ find_set name.now self.old }
    {
        let place = place_near(&self.sets, place, name)?;
        self.sets.get_index_mut(place)
    }

    /// Takes the set of a name out. The others keep their order. It takes no memory.
    ///
    /// # Errors
    ///
    /// Where there is no set of this name; the catalogue is then unchanged.
    pub fn remove(&mut self, name: &Name) -> Result<(), NoSet>
        ensures removed { self.new ≡ without_set name.now self.old }
        ensures found { IsOk result ↔ IsSome (find_set name.now self.old) }
        ensures unchanged { OnErr result (self.new ≡ self.old) }
    {
        match self.sets.shift_remove(name) {
            Some(_) => Ok(()),
            None => Err(NoSet),
        }
    }

    /// Gives the set of a name another permission list, and answers the list that it had. It takes no memory.
    ///
    /// # Errors
    ///
    /// Where there is no set of this name; the catalogue is then unchanged.
    #[tactic(auto, using(crate::proofs::Changing::changes))]
    pub fn set_acl(&mut self, name: &Name, acl: Acl) -> Result<Acl, NoSet>
        ensures set { self.new ≡ with_acl name.now acl self.old }
        ensures old { result_ok result ≡ option_map (λ set. set.acl) (find_set name.now self.old) }
        ensures unchanged { OnErr result (self.new ≡ self.old) }
    {
        match self.find_mut(name) {
            Some(set) => Ok(mem::replace(&mut set.acl, acl)),
            None => Err(NoSet),
        }
    }

    /// Puts the catalogue's text, version 2: for each set a line `$SET name owner group mode count`, its permission list in short
    /// form, and its records as they are. Each line is ended by LF. It takes no memory.
    pub fn print<S: Sink>(&self, sink: &mut S)
        ensures { Puts (S.standing sink.old) (S.standing sink.new) (catalogue_text self.now) }
    {
        for (name, set) in &self.sets {
            print_set(name, set, sink);
        }
    }

    /// Says of the catalogue's text that it is read back as the same catalogue. No record is looked at.
    pub fn reads_back(&self)
        ensures stored { IsStored self.now }
        ensures printable { ArePrintable self.now }
        ensures reads_back { catalogue_of Two (catalogue_lines self.now) ≡ Ok self.now }
        ensures bytes_read_back { catalogue_of Two (lines (catalogue_text self.now)) ≡ Ok self.now }
    {
        for (name, set) in &self.sets {
            text::reads_back(name, set);
        }
    }

    // The same catalogue once more. It stays a call, since it mostly is asked for where there is nothing to copy.
    #[inline(never)]
    fn copy(&self) -> Result<Catalogue, AllocError>
        ensures { IfOk result (λ copy. copy ≡ self.now) }
    {
        let alloc = self.allocator();
        let mut copy = Catalogue::new(alloc);
        for (name, set) in &self.sets {
            let copied = set.copy(alloc)?;
            copy.add(name.copy(), copied)?;
        }
        Ok(copy)
    }

    // Puts a set last.
    pub(crate) fn add(&mut self, name: Name, set: DataSet) -> Result<(), AllocError>
        requires absent { find_set name self.old ≡ None }
        requires room { length self.old < MOST_SETS }
        ensures added { OnOk result (self.new ≡ self.old ++ (name, set) ∷ []) }
        ensures unchanged { OnErr result (self.new ≡ self.old) }
    {
        self.sets.insert(name, set)?;
        Ok(())
    }

    pub(crate) fn allocator(&self) -> Global {
        *self.sets.allocator()
    }
}

/// The same catalogue once more, in the memory that this one takes its own from.
impl Clone for Catalogue {
    ghost is_clone = { λ old copy. copy ≡ old };

    fn clone(&self) -> Result<Catalogue, AllocError> {
        self.copy()
    }
}

// Where the set of a name stands, which is looked for at a place first.
#[inline(always)]
fn place_near(sets: &IndexMap<Name, DataSet>, place: usize, name: &Name) -> Option<usize>
    requires { NamesDiffer sets.now.entries }
    ensures place { result ≡ position (pointwise nat_eq name.now) (keys_of sets.now.entries) }
    ensures found { is_some result ≡ is_some (find_set name.now sets.now.entries) }
    ensures value { IfSome result (λ i. slice_get (values_of sets.now.entries) i ≡ find_set name.now sets.now.entries) }
{
    match sets.get_index(place) {
        Some((key, _)) => {
            if name == key {
                Some(place)
            } else {
                sets.get_index_of(name)
            }
        }
        None => sets.get_index_of(name),
    }
}
