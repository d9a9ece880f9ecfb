//! What the commits of a ledger come to: the texts that wait, the answers that are owed, whose they are, which number and which commit
//! is next.

use crate::{Owed, Sender};
use std::alloc::Global;
use std::collections::VecDeque;

/// A text that waits.
#[derive(Drop)]
pub struct Waiting {
    /// Its number.
    pub number: u64,
    /// The text.
    pub text: Vec<u8>,
    /// Whose it is.
    pub sender: Sender,
}

/// What the commits of a ledger come to.
#[derive(Drop)]
pub struct Ledger {
    pub(crate) alloc: Global,
    /// The texts that wait, the first of them first.
    pub waiting: VecDeque<Waiting>,
    /// The answers that are not yet on the disk for good.
    pub owed: Vec<Owed>,
    /// No text has this number or a later one.
    pub next: u64,
    /// So many commits stand.
    pub commits: u64,
    /// The digest of the last one; empty before the first.
    pub last: Vec<u8>,
}

impl Ledger {
    ghost use Rattle.std.specs.Prelude.{◌≡◌, []};
    ghost use Rattle.ledger_run.specs.Runs.{seen_ledger};
    ghost use Rattle.ledger_run.specs.Senders.{no_senders};

    /// A ledger without commits.
    pub fn new(alloc: Global) -> Ledger
        ensures { seen_ledger result ≡ record { waiting = []; owed = []; next = 0; commits = 0; last = []; senders = no_senders } }
    {
        Ledger {
            alloc,
            waiting: VecDeque::new(alloc),
            owed: Vec::new(alloc),
            next: 0,
            commits: 0,
            last: Vec::new(alloc),
        }
    }
}
