//! The list of the calls that were made, which clauses alone read: it takes no memory.
ghost use Rattle.std.specs.Prelude.{◌≡◌, List, [], ◌∷◌, ◌++◌};
ghost use Rattle.std.specs.Borrow.{ftrue};
ghost use Rattle.ledger_disk.specs.Disks.{Call};
ghost use Rattle.ledger_disk.specs.Events.{call_of};

use crate::event::Event;
use std::marker::{Model, PhantomData};

/// The calls that were made, the first of them first.
#[derive(Drop)]
pub struct Record {
    marker: PhantomData<u8>,
    /// These calls.
    pub ghost calls: { List Call },
}

impl Model for Record {
    ghost also_owns = { λ _. ftrue };
}

impl Record {
    pub(crate) fn new() -> Record
        ensures { result.calls ≡ [] }
    {
        Record {
            marker: PhantomData,
        }
    }

    /// A call was made, with these bytes where it has any.
    pub(crate) fn note(&mut self, _event: &Event, _bytes: &[u8])
        ensures { self.new.calls ≡ self.old.calls ++ call_of _event.now _bytes.now ∷ [] }
    {}
}
