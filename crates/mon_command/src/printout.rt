//! The printout of a command.
ghost use Rattle.std.specs.Prelude.{◌≡◌, IfOk};
ghost use Rattle.mon_command.specs.Commanded.{Told};
ghost use Rattle.mon_command.specs.inner.Serving.{Answers};

use crate::printing::put_heading;
use crate::reply::Reply;
use crate::said::Said;
use deck_lines::Command;
use std::alloc::{AllocError, Global};
use std::marker::Model;

/// How many bytes a printout has room for at first: few are longer, and so few have to grow.
pub(crate) const USUAL_BYTES: usize = 256;

/// What a command prints: its own line, and its answer below it. Each line is ended by LF.
///
/// A contract sees it as its bytes.
#[derive(Drop)]
pub struct Printout {
    pub bytes: Vec<u8>,
}

impl Model for Printout {
    ghost use Rattle.std.specs.Prelude.{ℕ, List};

    ghost Value = { List ℕ };

    ghost view = { λ p. p.bytes.items };
}

impl Printout {
    /// The bytes in order.
    pub fn as_slice(&self) -> &[u8]
        ensures { result.now ≡ self.now }
    {
        &self.bytes
    }
}

/// What a command is answered: its printout, and what that says.
#[derive(Drop)]
pub(crate) struct Answered {
    pub(crate) printout: Printout,
    pub(crate) said: Said,
}

// What is answered to a command that is told a reply.
pub(crate) fn told(alloc: Global, command: &Command, reply: Reply) -> Result<Answered, AllocError>
    ensures { IfOk result (λ given. Answers command.now given (Told reply)) }
{
    let mut bytes = Vec::with_capacity(alloc, USUAL_BYTES)?;
    put_heading(command, &mut bytes)?;
    reply.put_line(&mut bytes)?;
    Ok(Answered {
        printout: Printout { bytes },
        said: Said::Told(reply),
    })
}
