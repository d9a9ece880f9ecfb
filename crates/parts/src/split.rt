//! Which part each text goes to, by its number, and each name.
ghost use Rattle.std.specs.Prelude.{◌≡◌, ◌++◌, [], ◌∷◌, nat_eq, OnOk};
ghost use Rattle.std.specs.List.{IsDistinct};
ghost use Rattle.std.specs.Map.{keys_of};
ghost use Rattle.std.specs.Cmp.Lexicographic.{pointwise};
ghost use Rattle.parts.specs.Splits.{goes};

use indexmap::IndexMap;
use mon_text::Name;
use std::alloc::{AllocError, Global};
use std::marker::Model;

/// A split. What it does not tell goes to part 0.
#[derive(Drop)]
pub struct Split {
    pub(crate) texts: Vec<u64>,
    pub(crate) names: IndexMap<Name, u64>,
}

impl Model for Split {
    ghost use Rattle.parts.specs.Told.{Told};

    ghost Value = { Told };

    ghost view = { λ s. record { texts = s.texts.items; names = s.names.entries } };
}

impl Split {
    /// All in part 0.
    pub fn one_part(alloc: Global) -> Split
        ensures { result ≡ record { texts = []; names = [] } }
    {
        Split {
            texts: Vec::new(alloc),
            names: IndexMap::new(alloc),
        }
    }

    /// One text more, which goes to this part.
    ///
    /// # Errors
    ///
    /// Where a growth was refused.
    pub fn push_text(&mut self, part: u64) -> Result<(), AllocError>
        ensures { OnOk result (self.new ≡ record self.old { texts = self.old.texts ++ part ∷ [] }) }
    {
        self.texts.push(part)?;
        Ok(())
    }

    /// A name goes to this part.
    ///
    /// # Errors
    ///
    /// Where a growth was refused.
    pub fn put_name(&mut self, name: &Name, part: u64) -> Result<(), AllocError>
        ensures { OnOk result (self.new.texts ≡ self.old.texts) }
    {
        let before = self.names.insert(name.copy(), part)?;
        drop(before);
        Ok(())
    }

    // How many names it tells, no two of them the same.
    pub(crate) fn count(&self) -> usize
        ensures { IsDistinct (pointwise nat_eq) (keys_of self.now.names) }
    {
        self.names.len()
    }

    /// The part of the text of this number.
    pub fn of_text(&self, number: u64) -> u64
        ensures { result ≡ (goes self.now).of_text number }
    {
        match self.texts.get(number as usize) {
            Some(part) => *part,
            None => 0,
        }
    }

    /// The part of a name.
    pub fn of_name(&self, name: &Name) -> u64
        ensures { result ≡ (goes self.now).of_name name.now }
    {
        match self.names.get(name) {
            Some(part) => *part,
            None => 0,
        }
    }
}
