//! Boxes without a file. That there are such shows that boxes can be what `Boxes` says.
ghost use Rattle.std.specs.Prelude.{◌≡◌, []};

use crate::boxes::Boxes;
use crate::look::{Entry, Look};
use ledger_disk::DiskError;
use std::alloc::Global;

/// What was looked for.
#[derive(Clone, Copy)]
pub(crate) enum Miss {
    /// The next name in the box of this place.
    Met(usize),
    /// What stands under this number.
    Looked(u64),
    /// Its bytes.
    Held(u64),
}

/// Boxes without a file.
#[derive(Drop)]
pub struct NoBoxes {
    misses: Vec<Miss>,
}

impl NoBoxes {
    ghost use Rattle.ledger_boxes.specs.Missing.{seen_of};

    /// Before the first look.
    pub fn new(alloc: Global) -> NoBoxes
        ensures { seen_of result ≡ [] }
    {
        NoBoxes {
            misses: Vec::new(alloc),
        }
    }
}

impl Boxes for NoBoxes {
    ghost use Rattle.ledger_boxes.specs.Missing.{seen_of};

    ghost seen = { seen_of };

    fn next_entry(&mut self, place: usize) -> Result<Option<Entry>, DiskError> {
        self.misses.push(Miss::Met(place))?;
        Ok(None)
    }

    fn look(&mut self, number: u64) -> Result<Option<Look>, DiskError> {
        self.misses.push(Miss::Looked(number))?;
        Ok(None)
    }

    fn bytes(&mut self, number: u64, _most: u64) -> Result<Option<Vec<u8>>, DiskError> {
        self.misses.push(Miss::Held(number))?;
        Ok(None)
    }
}
