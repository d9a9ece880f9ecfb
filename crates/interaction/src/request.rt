//! Requests.
ghost use Rattle.std.specs.Prelude.{◌≡◌, IfOk, IsTrue};
ghost use Rattle.interaction.specs.Fitting.{fits};
ghost use Rattle.interaction.specs.Scripts.{unscripted};

use crate::answer::Answer;
use mon_text::Line;
use std::alloc::{AllocError, Global};

/// What is to be done, on the unit of this number.
#[derive(Drop)]
pub enum Act {
    /// Read the next record.
    Read(u64),
    /// Write a line as a record.
    Write(u64, Line),
    /// Cut off the records from the place reached on.
    Endfile(u64),
    /// Go back to the first record.
    Rewind(u64),
}

/// What a program asks.
#[derive(Drop)]
pub struct Request {
    /// The number of the statement that asks.
    pub statement: u64,
    /// What it asks.
    pub act: Act,
}

impl Act {
    /// Whether this is an answer that the act may have.
    pub fn takes(&self, answer: &Answer) -> bool
        ensures { result ≡ fits self.now answer.now }
    {
        match self {
            Act::Read(_) => matches!(
                answer,
                Answer::Got(_) | Answer::EndOfFile | Answer::Denied(_)
            ),
            Act::Write(_, _) => {
                matches!(answer, Answer::Done | Answer::Full | Answer::Denied(_))
            }
            Act::Endfile(_) | Act::Rewind(_) => {
                matches!(answer, Answer::Done | Answer::Denied(_))
            }
        }
    }

    // What a script answers that has no answer for it.
    pub(crate) fn unscripted(&self) -> Answer
        ensures answer { result ≡ unscripted self.now }
        ensures fits { IsTrue (fits self.now result) }
    {
        match self {
            Act::Read(_) => Answer::EndOfFile,
            _ => Answer::Done,
        }
    }

    /// The same act once more.
    ///
    /// # Errors
    ///
    /// Where a growth was refused.
    pub fn copy(&self, alloc: Global) -> Result<Act, AllocError>
        ensures { IfOk result (λ act. act ≡ self.now) }
    {
        Ok(match self {
            Act::Read(unit) => Act::Read(*unit),
            Act::Write(unit, line) => Act::Write(*unit, line.copy(alloc)?),
            Act::Endfile(unit) => Act::Endfile(*unit),
            Act::Rewind(unit) => Act::Rewind(*unit),
        })
    }
}

impl Request {
    /// The same request once more.
    ///
    /// # Errors
    ///
    /// Where a growth was refused.
    pub fn copy(&self, alloc: Global) -> Result<Request, AllocError>
        ensures { IfOk result (λ request. request ≡ self.now) }
    {
        Ok(Request {
            statement: self.statement,
            act: self.act.copy(alloc)?,
        })
    }
}
