//! Functions that were defined.
ghost use Rattle.std.specs.Prelude.{◌≡◌, [], nat_eq, OnOk, OnErr};
ghost use Rattle.std.specs.Option.{option_copied};
ghost use Rattle.std.specs.Map.{lookup};
ghost use Rattle.std.specs.Cmp.Lexicographic.{pointwise};
ghost use Rattle.indexmap.specs.IndexMap.{insert_entry};

use crate::callee::{Callee, is_built_in};
use indexmap::IndexMap;
use sno_declarations::Function;
use sno_text::{Name, Named, Seed};
use std::alloc::{AllocError, Global};
use std::marker::Model;

/// The functions of a job by their names.
#[derive(Drop)]
pub struct Functions {
    functions: IndexMap<Name, Function, Seed>,
    // Whether one of them has a name that no program has to define.
    overrides: bool,
}

impl Model for Functions {
    ghost use Rattle.std.specs.Prelude.{◌≡◌, ℕ, List, nat_eq};
    ghost use Rattle.std.specs.List.{IsDistinct};
    ghost use Rattle.std.specs.Map.{keys_of};
    ghost use Rattle.std.specs.Cmp.Lexicographic.{pointwise};
    ghost use Rattle.sno_declarations.specs.declared.definition.Definition.{Definition};
    ghost use Rattle.sno_store.specs.Callees.{any_built_in};

    ghost Value = { List (List ℕ × Definition) };

    ghost view = { λ f. f.functions.entries };

    ghost invariant = { λ f. IsDistinct (pointwise nat_eq) (keys_of f.functions.entries) × (f.overrides ≡ any_built_in f.functions.entries) };
}

impl Functions {
    /// No functions. They are found by a hash of this seed.
    pub fn new(alloc: Global, seed: Seed) -> Functions
        ensures { result ≡ [] }
    {
        Functions {
            functions: IndexMap::with_hasher(alloc, seed),
            overrides: false,
        }
    }

    /// The function of a name, which is told its place.
    fn get_named(&self, name: &Named) -> Option<&Function>
        ensures { option_copied result ≡ lookup (pointwise nat_eq name.now) self.now }
    {
        match self.functions.get_full(name.name()) {
            Some((place, _, function)) => {
                name.stands_at(place);
                Some(function)
            }
            None => None,
        }
    }

    /// The function of a name, which is looked for at its place first.
    fn get_near(&self, name: &Named) -> Option<&Function>
        ensures { option_copied result ≡ lookup (pointwise nat_eq name.now) self.now }
    {
        match self.functions.get_index(name.place()) {
            Some((key, function)) => {
                if key == name.name() {
                    Some(function)
                } else {
                    self.get_named(name)
                }
            }
            None => self.get_named(name),
        }
    }

    /// The function that was defined of a name. One that no program has to define is not looked for where none was.
    #[tactic(auto, using(crate::proofs::Defining::none_defined))]
    pub fn get(&self, callee: &Callee) -> Option<&Function>
        ensures { option_copied result ≡ lookup (pointwise nat_eq callee.now) self.now }
    {
        if !self.overrides && callee.is_built_in() {
            return None;
        }
        self.get_near(callee.name())
    }

    /// Defines a function, in place of one of its name.
    ///
    /// # Errors
    ///
    /// Where a growth was refused; nothing has changed then.
    #[tactic(auto, using(crate::proofs::Defining::defining))]
    pub fn define(&mut self, name: Name, function: Function) -> Result<(), AllocError>
        ensures defined { OnOk result (self.new ≡ insert_entry (pointwise nat_eq) self.old name function) }
        ensures unchanged { OnErr result (self.new ≡ self.old) }
    {
        let overrides = self.overrides | is_built_in(name.text().as_bytes());
        match self.functions.insert(name, function) {
            Ok(_) => {
                self.overrides = overrides;
                Ok(())
            }
            Err(_) => Err(AllocError),
        }
    }
}
