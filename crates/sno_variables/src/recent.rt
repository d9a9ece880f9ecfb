//! Where variables were found, for names that were formed and so know no place of their own.
ghost use Rattle.std.specs.Prelude.{◌≡◌, ◌<◌};

use std::array;
use std::cell::Cell;
use std::marker::Model;

/// How many places are kept.
const KEPT: usize = 64;

/// The place of the variable that was found last, for each of some groups of names.
///
/// No contract sees them: a wrong place costs time and nothing else.
#[derive(Drop)]
pub(crate) struct Recent {
    places: [Cell<usize>; 64],
}

/// The group of a name: by its length, its last character and one in its middle, in which names of one program differ most.
#[inline(always)]
fn group_of(name: &[u8]) -> usize
    ensures { result < 64 }
{
    match name.last() {
        Some(last) => {
            let middle = name[name.len() / 2];
            (name.len() % KEPT + 5 * usize::from(middle) + 11 * usize::from(*last)) % KEPT
        }
        None => 0,
    }
}

impl Model for Recent {
    ghost use Rattle.std.specs.Prelude.{⊤};

    ghost Value = { ⊤ };

    ghost view = { λ r. tt };
}

impl Recent {
    /// No place is known.
    pub(crate) fn new() -> Recent {
        Recent {
            places: array::from_fn(|_| Cell::new(0)),
        }
    }

    /// Where a name is looked for first.
    #[inline(always)]
    pub(crate) fn place(&self, name: &[u8]) -> usize {
        self.places[group_of(name)].get()
    }

    /// From now on a name is looked for at a place first.
    pub(crate) fn found_at(&self, name: &[u8], place: usize) {
        self.places[group_of(name)].set(place);
    }
}
