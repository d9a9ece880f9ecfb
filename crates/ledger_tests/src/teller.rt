//! A small machine: a text prints all that ran before it, and itself.
ghost use Rattle.std.specs.Prelude.{◌≡◌, ◌++◌, [], map, IfOk};
ghost use Rattle.ledger_tests.specs.Telling.{told, telling};

use ledger_run::{LedgerError, Machine, Outcome};
use std::alloc::Global;

/// What ran so far.
#[derive(Drop)]
pub struct Teller {
    alloc: Global,
    texts: Vec<Vec<u8>>,
}

impl Teller {
    /// Nothing ran.
    pub fn new(alloc: Global) -> Teller
        ensures { map (λ text. text.items) result.texts.items ≡ [] }
    {
        Teller {
            alloc,
            texts: Vec::new(alloc),
        }
    }
}

// All that ran, one text behind the other, and this one.
fn printed(alloc: Global, before: &[Vec<u8>], text: &[u8]) -> Result<Vec<u8>, LedgerError>
    ensures { IfOk result (λ printout. printout.items ≡ told (map (λ text. text.items) before.now) ++ text.now) }
{
    let mut printout = Vec::new(alloc);
    for one in before {
        printout.extend_from_slice(one)?;
    }
    printout.extend_from_slice(text)?;
    Ok(printout)
}

impl Machine for Teller {
    ghost step = { telling };

    ghost behind = { λ teller. map (λ text. text.items) teller.texts.items };

    fn run(&mut self, text: &[u8]) -> Result<Outcome, LedgerError> {
        let printout = printed(self.alloc, &self.texts, text)?;
        let change = text.to_vec(self.alloc)?;
        Ok(Outcome { printout, change })
    }

    fn apply(&mut self, change: &[u8]) -> Result<(), LedgerError> {
        let change = change.to_vec(self.alloc)?;
        self.texts.push(change)?;
        Ok(())
    }
}
