//! The list of the changes that were made, which clauses alone read: it takes no memory.
ghost use Rattle.std.specs.Prelude.{◌≡◌, ℕ, List, [], ◌∷◌, ◌++◌};
ghost use Rattle.std.specs.Borrow.{ftrue};

use std::marker::{Model, PhantomData};

/// The changes that were made, the first of them first.
#[derive(Drop)]
pub struct Behind {
    marker: PhantomData<u8>,
    /// These changes.
    pub ghost changes: { List (List ℕ) },
}

impl Model for Behind {
    ghost also_owns = { λ _. ftrue };
}

impl Behind {
    /// No change.
    pub fn new() -> Behind
        ensures { result.changes ≡ [] }
    {
        Behind {
            marker: PhantomData,
        }
    }

    /// This change was made, too.
    pub fn note(&mut self, _change: &[u8])
        ensures { self.new.changes ≡ self.old.changes ++ _change.now ∷ [] }
    {}
}
