//! What a site's changes come to.
use mon_catalogue::Catalogue;
use std::alloc::Global;

/// The operator's texts, as they stand.
#[derive(Drop)]
pub struct Tables {
    /// The account table.
    pub accounts: Vec<u8>,
    /// The users.
    pub users: Vec<u8>,
    /// The limits.
    pub limits: Vec<u8>,
}

/// What a site's changes come to.
#[derive(Drop)]
pub struct State {
    /// The data sets.
    pub catalogue: Catalogue,
    /// How many jobs ran so far.
    pub jobs: u64,
    /// The operator's texts.
    pub tables: Tables,
}

/// A text that is no change of the state that it is to change.
#[derive(Clone, Copy)]
pub struct NoChange;

impl State {
    ghost use Rattle.std.specs.Prelude.{◌≡◌};
    ghost use Rattle.ledger_sets.specs.Applying.{no_site};
    ghost use Rattle.ledger_sets.specs.Seeing.{site_of};

    /// That of no change.
    pub fn new(alloc: Global) -> State
        ensures { site_of result ≡ no_site }
    {
        State {
            catalogue: Catalogue::new(alloc),
            jobs: 0,
            tables: Tables {
                accounts: Vec::new(alloc),
                users: Vec::new(alloc),
                limits: Vec::new(alloc),
            },
        }
    }
}
