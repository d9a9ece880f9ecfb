//! The list of what was seen, which clauses alone read: it takes no memory.
ghost use Rattle.std.specs.Prelude.{◌≡◌, List, [], ◌∷◌, ◌++◌};
ghost use Rattle.std.specs.Borrow.{ftrue};
ghost use Rattle.ledger_boxes.specs.Sights.{Sight};
ghost use Rattle.ledger_boxes.specs.Glimpses.{sight_of};

use crate::glimpse::Glimpse;
use std::marker::{Model, PhantomData};

/// What was seen, the first of it first.
#[derive(Drop)]
pub struct Record {
    marker: PhantomData<u8>,
    /// These sights.
    pub ghost sights: { List Sight },
}

impl Model for Record {
    ghost also_owns = { λ _. ftrue };
}

impl Record {
    pub(crate) fn new() -> Record
        ensures { result.sights ≡ [] }
    {
        Record {
            marker: PhantomData,
        }
    }

    /// This was seen, with these bytes where it has any.
    pub(crate) fn note(&mut self, _glimpse: &Glimpse, _bytes: &[u8])
        ensures { self.new.sights ≡ self.old.sights ++ sight_of _glimpse.now _bytes.now ∷ [] }
    {}
}
