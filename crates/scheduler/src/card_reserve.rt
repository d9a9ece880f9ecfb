//! What jobs leave to cards and commands.
//!
//! It is kept while jobs have turns, and from then on, so that it need not be taken anew for each few turns. Who needs memory for a card or
//! a command makes it give way. No contract sees how much is kept.
ghost use Rattle.std.specs.Prelude.{◌≡◌};

use crate::reserve::Reserve;
use std::alloc::Global;
use std::marker::Model;

#[derive(Drop)]
pub(crate) struct CardReserve {
    kept: Reserve,
}

impl Model for CardReserve {
    ghost Value = { Unit {0} };

    ghost view = { λ _. tt };
}

impl CardReserve {
    // One as large as another, of which none is kept.
    pub(crate) fn like(alloc: Global, other: &Reserve) -> CardReserve {
        CardReserve {
            kept: other.another(alloc),
        }
    }

    // Before turns: what can be kept is kept.
    pub(crate) fn take(&mut self, alloc: Global)
        ensures { self.new ≡ self.old }
    {
        self.kept.take(alloc);
    }

    // Before few turns, which would take less time than to keep so much: a little is kept.
    pub(crate) fn take_little(&mut self, alloc: Global)
        ensures { self.new ≡ self.old }
    {
        self.kept.take_little(alloc);
    }

    // After turns: all stays that was kept whole, as long as there is a little beside it for cards that take no more than that.
    pub(crate) fn stay(&mut self, alloc: Global)
        ensures { self.new ≡ self.old }
    {
        self.kept.stay(alloc);
    }

    // Gives up what is kept: whether there was any.
    pub(crate) fn give_way(&mut self) -> bool
        ensures { self.new ≡ self.old }
    {
        self.kept.give_way()
    }
}
