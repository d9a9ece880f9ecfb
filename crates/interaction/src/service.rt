//! What answers the requests of a program.
ghost use Rattle.std.specs.Prelude.{◌≡◌, ◌≤◌, length, IfOk, OnErr};
ghost use Rattle.mon_text.specs.Lines.{IsLine};
ghost use Rattle.interaction.specs.Fitting.{Fits, IsShort, writing};

use crate::answer::Answer;
use crate::request::Request;
use std::alloc::AllocError;

/// Whoever answers the requests of a program.
pub trait Service {
    ghost use Rattle.interaction.specs.declared.request.Request.{Request};
    ghost use Rattle.interaction.specs.declared.answer.Answer.{Answer};

    /// What holds before and after each request.
    ghost ready: { Self → Type 0 };

    /// What the service means: in the first state it may give this answer to the request, and is in the second then.
    ghost answers: { Self → Request → Answer → Self → Type 0 };

    /// Answers a request. A line that is to be written has at most 1,024 characters.
    ///
    /// # Errors
    ///
    /// Where a growth was refused. Nothing has changed then.
    fn ask(&mut self, request: &Request) -> Result<Answer, AllocError>
        requires ready { ready self.old }
        requires short { IsShort request.now.act }
        ensures answered { IfOk result (λ answer. answers self.old request.now answer self.new) }
        ensures fits { IfOk result (λ answer. Fits request.now answer) }
        ensures unchanged { OnErr result (self.new ≡ self.old) }
        ensures ready { ready self.new };

    /// Writes a line of at most 1,024 printable characters: answers what `ask` answers to that request, from a line that stays its owner's.
    ///
    /// # Errors
    ///
    /// Where a growth was refused. Nothing has changed then.
    fn write(&mut self, statement: u64, unit: u64, line: &[u8]) -> Result<Answer, AllocError>
        requires ready { ready self.old }
        requires printable { IsLine line.now }
        requires short { length line.now ≤ 1024 }
        ensures answered { IfOk result (λ answer. answers self.old (writing statement unit line.now) answer self.new) }
        ensures fits { IfOk result (λ answer. Fits (writing statement unit line.now) answer) }
        ensures unchanged { OnErr result (self.new ≡ self.old) }
        ensures ready { ready self.new };

    /// Whether the program is to be broken off, as where a growth is refused. It is asked now and then.
    fn is_late(&self) -> bool {
        false
    }
}
