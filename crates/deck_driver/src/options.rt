//! What a run is told beside its deck, and what it counts.
ghost use Rattle.std.specs.Prelude.{◌≡◌, ◌≤◌, ◌↔◌, false, IsSome, IfSome};

use sno_text::Seed;

/// How many slots for jobs there are: 1 to 8.
#[derive(Clone, Copy)]
pub struct Slots {
    number: u8,
    ghost within: { (1 ≤ number) × (number ≤ 8) },
}

impl Slots {
    /// So many slots, where there may be so many.
    pub fn new(number: u8) -> Option<Slots>
        ensures within { IsSome result ↔ ((1 ≤ number) × (number ≤ 8)) }
        ensures value { IfSome result (λ slots. slots.number ≡ number) }
    {
        if (1..=8).contains(&number) {
            Some(Slots { number })
        } else {
            None
        }
    }

    pub(crate) fn number(self) -> u8
        ensures value { result ≡ self.number }
        ensures within { (1 ≤ result) × (result ≤ 8) }
    {
        self.number
    }
}

/// What a run is told beside its deck.
#[derive(Clone, Copy)]
pub struct Options {
    /// How many slots there are: so many jobs have turns by turns.
    pub slots: Slots,
    /// Whether the deck is only read, and not run.
    pub check: bool,
    /// By which what jobs name is hashed. Nothing but time depends on it.
    pub seed: Seed,
}

impl Options {
    /// Four slots, and the deck is run, with the seed that is the same each time.
    pub fn new() -> Options
        ensures slots { result.slots.number ≡ 4 }
        ensures runs { result.check ≡ false }
    {
        Options {
            slots: Slots { number: 4 },
            check: false,
            seed: Seed::fixed(),
        }
    }
}

/// How many jobs and commands a deck has.
#[derive(Clone, Copy)]
pub struct Counts {
    pub jobs: u64,
    pub commands: u64,
}
