//! A site's machine: its state, by the changes so far.

use crate::machine::run_watched;
use crate::watching::{Unwatched, Watch};
use ledger_behind::Behind;
use ledger_run::{LedgerError, Machine, Outcome};
use ledger_sets::{NoChange, State, apply_change};
use mon_text::Stop;
use sno_text::Seed;
use std::alloc::{AllocError, Global};
use std::marker::Model;

/// What runs a site's texts. Contracts see it as the changes that were made, the first of them first.
#[derive(Drop)]
pub struct SiteMachine {
    alloc: Global,
    seed: Seed,
    state: State,
    behind: Behind,
    is_whole: bool,
}

impl Model for SiteMachine {
    ghost use Rattle.std.specs.Prelude.{◌≡◌, ℕ, List, true, Some};
    ghost use Rattle.ledger_sets.specs.Applying.{no_site, after_changes};
    ghost use Rattle.ledger_sets.specs.Seeing.{site_of};

    ghost Value = { List (List ℕ) };

    ghost view = { λ m. m.behind.changes };

    ghost invariant = { λ m. m.is_whole ≡ true → after_changes m.behind.changes no_site ≡ Some (site_of m.state) };
}

impl SiteMachine {
    ghost use Rattle.std.specs.Prelude.{◌≡◌, ◌≤◌, ◌++◌, ◌∷◌, [], length, Some, IfOk, IfSome, OnOk};
    ghost use Rattle.ledger_sets.specs.Applying.{no_site, after_changes};
    ghost use Rattle.ledger_sets.specs.Seeing.{site_of};
    ghost use Rattle.ledger_machine.specs.Steps.{site_step};
    ghost use Rattle.ledger_machine.specs.Written.{LeavesWrittenBehind};

    /// That of a site of which nothing is known. What jobs name is found by a hash of this seed.
    pub fn new(alloc: Global, seed: Seed) -> SiteMachine
        ensures { result ≡ [] }
    {
        SiteMachine {
            alloc,
            seed,
            state: State::new(alloc),
            behind: Behind::new(),
            is_whole: true,
        }
    }

    /// What the changes came to, unless one of them failed.
    pub fn state(&self) -> Option<&State>
        ensures { IfSome result (λ state. after_changes self.now no_site ≡ Some (site_of state.now)) }
    {
        if self.is_whole {
            Some(&self.state)
        } else {
            None
        }
    }

    /// What a text comes to, as long as it may go on. Nothing is changed yet. What it leaves and changes can be written.
    ///
    /// # Errors
    ///
    /// Where memory was short, the machine is of no more use, or the text is none that may run (`Refused`); where the watch says that it may
    /// not go on.
    pub fn run_watched<W: Watch>(&self, text: &[u8], watch: &mut W) -> Result<Outcome, LedgerError>
        ensures told { IfOk result (λ outcome. site_step text.now self.now ≡ (outcome.printout.items, outcome.change.items)) }
        ensures written { OnOk result (LeavesWrittenBehind text.now self.now) }
        ensures within { IfOk result (λ outcome. length outcome.printout.items ≤ W.most watch.old) }
    {
        match self.state() {
            Some(state) => run_watched(self.alloc, self.seed, state, text, watch),
            None => Err(LedgerError::Refused),
        }
    }

    // Makes a change. Where it fails the machine is of no more use.
    #[tactic(auto, using(crate::proofs::Stepping::leads_on))]
    pub(crate) fn change(&mut self, change: &[u8]) -> Result<(), LedgerError>
        ensures { OnOk result (self.new ≡ self.old ++ change.now ∷ []) }
    {
        if !self.is_whole {
            return Err(LedgerError::Refused);
        }
        match apply_change(self.alloc, change, &mut self.state) {
            Ok(()) => {
                self.behind.note(change);
                Ok(())
            }
            Err(stop) => {
                self.is_whole = false;
                Err(failed(stop))
            }
        }
    }
}

fn failed(stop: Stop<NoChange>) -> LedgerError {
    match stop {
        Stop::Refused(_) => LedgerError::Refused,
        Stop::Memory => LedgerError::from(AllocError),
    }
}

impl Machine for SiteMachine {
    ghost use Rattle.ledger_machine.specs.Steps.{site_step};

    ghost step = { site_step };

    ghost behind = { λ m. m };

    fn run(&mut self, text: &[u8]) -> Result<Outcome, LedgerError> {
        let mut free = Unwatched;
        match self.run_watched(text, &mut free) {
            Ok(outcome) => Ok(outcome),
            Err(error) => Err(error),
        }
    }

    fn apply(&mut self, change: &[u8]) -> Result<(), LedgerError> {
        match self.change(change) {
            Ok(()) => Ok(()),
            Err(error) => Err(error),
        }
    }
}
