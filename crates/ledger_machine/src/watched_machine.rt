//! A site's machine whose texts are watched.

use crate::site_machine::SiteMachine;
use crate::watching::Watch;
use ledger_run::{LedgerError, Machine, Outcome};

/// What runs a site's texts, each as long as its watch lets it.
#[derive(Drop)]
pub struct WatchedMachine<W: Watch + Drop> {
    /// What runs them.
    pub machine: SiteMachine,
    /// What is asked whether they may go on.
    pub watch: W,
}

impl<W: Watch + Drop> Machine for WatchedMachine<W> {
    ghost use Rattle.ledger_machine.specs.Steps.{site_step};

    ghost step = { site_step };

    ghost behind = { λ watched. watched.machine };

    fn run(&mut self, text: &[u8]) -> Result<Outcome, LedgerError> {
        match self.machine.run_watched(text, &mut self.watch) {
            Ok(outcome) => Ok(outcome),
            Err(error) => Err(error),
        }
    }

    fn apply(&mut self, change: &[u8]) -> Result<(), LedgerError> {
        match self.machine.change(change) {
            Ok(()) => Ok(()),
            Err(error) => Err(error),
        }
    }
}
