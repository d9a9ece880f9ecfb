//! What a match asks of its host.

ghost use Rattle.sno_pattern.specs.Looks.{Look, Told, LookUp, Assign};
ghost use Rattle.sno_pattern.specs.Hosts.{WasFound, WasGiven};

use sno_text::{Fault, Named, Pat, Text};

/// What a variable stands for in a pattern.
#[derive(Drop)]
pub enum Looked {
    Pattern(Pat),
    Text(Text),
    /// Again what a variable stands for.
    Defer(Text),
}

/// What is assigned while a match goes on.
#[derive(Drop)]
pub enum Taken {
    /// A part of the text.
    Part(Text),
    Cursor(u64),
}

/// Why a host does not do what was asked.
#[derive(Drop)]
pub enum Stop {
    /// It fails, and so does the goal.
    Fail,
    /// A fault, which ends the match.
    Fault(Fault),
    /// A growth was refused.
    Memory,
}

/// Who looks variables up and assigns to them while a match goes on, by what it may tell in each state.
pub trait MatchHost {
    /// It can be asked.
    ghost ready: { Self → Type 0 };

    /// From a state, by what is asked and what it tells, to a state.
    ghost tells: { Self → Look → Told → Self → Type 0 };

    /// Where a call that is broken off for want of memory may leave it.
    ghost broken: { Self → Look → Self → Type 0 };

    /// What a variable stands for in a pattern now.
    fn look_up(&mut self, variable: &Named) -> Result<Looked, Stop>
        requires { ready self.old }
        ensures told { WasFound tells broken self.old (LookUp variable.now) result self.new }
        ensures ready { ready self.new };

    /// Assigns what was taken to a variable now.
    fn assign(&mut self, variable: &Text, taken: Taken) -> Result<(), Stop>
        requires { ready self.old }
        ensures told { WasGiven tells broken self.old (Assign variable.now taken) result self.new }
        ensures ready { ready self.new };

    /// Whether the match is to be broken off, as where a growth is refused. It is asked now and then.
    fn is_late(&self) -> bool {
        false
    }
}
