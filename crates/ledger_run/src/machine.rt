//! What runs a text: any function of the text and of what the texts before it changed.
ghost use Rattle.std.specs.Prelude.{◌≡◌, ◌++◌, [], ◌∷◌, ℕ, List, IfOk, OnOk};

use crate::LedgerError;

/// What a text came to.
#[derive(Drop)]
pub struct Outcome {
    /// What it printed.
    pub printout: Vec<u8>,
    /// What it changed, as the machine writes that.
    pub change: Vec<u8>,
}

/// Runs texts over what was changed before.
pub trait Machine {
    /// What a text prints and changes, by what was changed before it, the first change first.
    ghost step: { List ℕ → List (List ℕ) → List ℕ × List ℕ };

    /// What was changed so far.
    ghost behind: { Self → List (List ℕ) };

    /// What a text comes to. Nothing is changed yet.
    ///
    /// # Errors
    ///
    /// Where a growth was refused, or the machine can't say it, as where the text runs longer or prints more than it may (`Late`, `Long`).
    fn run(&mut self, text: &[u8]) -> Result<Outcome, LedgerError>
        ensures told { IfOk result (λ outcome. step text.now (behind self.old) ≡ (outcome.printout.items, outcome.change.items)) }
        ensures stays { behind self.new ≡ behind self.old };

    /// This is changed.
    ///
    /// # Errors
    ///
    /// Where a growth was refused, or the change is none of this machine's.
    fn apply(&mut self, change: &[u8]) -> Result<(), LedgerError>
        ensures { OnOk result (behind self.new ≡ behind self.old ++ change.now ∷ []) };
}
