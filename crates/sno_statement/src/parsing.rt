//! The parser of statements.

ghost use Rattle.std.specs.Prelude.{◌≡◌, IfOk};
ghost use Rattle.sno_statement.specs.Abstraction.{Parsed, read_into, statement_of};
ghost use Rattle.sno_statement.specs.Statements.{Says, NoBody, NoGoto};
ghost use Rattle.sno_statement.specs.inner.Parsing.{blame};

use crate::fault::{Fault, FaultKind};
use crate::parser::{Refusal, read_statement};
use crate::statement::Statement;
use sno_lexer::Token;
use std::alloc::{AllocError, Global};

// What is wrong: a variable that is lacking comes before the token that does not fit.
fn blame(total: usize, refusal: Refusal) -> Fault
    ensures { result ≡ blame total refusal }
{
    if refusal.lacking == 0 {
        Fault {
            at: total.saturating_sub(refusal.left),
            kind: refusal.kind,
        }
    } else {
        Fault {
            at: total.saturating_sub(refusal.lacking),
            kind: FaultKind::NoVariable,
        }
    }
}

/// Reads into a statement, which does nothing and goes on, the one that the tokens behind a label spell, or tells their leftmost
/// fault, in one pass.
///
/// The statement is the only one that they spell: its trees obey precedence and associativity, and where a variable is
/// needed there is one. A fault is answered exactly where there is no such statement; then what was read is of no use.
///
/// # Errors
///
/// Where a growth was refused.
pub fn parse_statement(
    alloc: Global,
    tokens: &[Token],
    statement: &mut Statement,
) -> Result<Result<(), Fault>, AllocError>
    requires { statement_of statement.old ≡ Says NoBody NoGoto }
    ensures { IfOk result (λ r. Parsed tokens.now (read_into statement.new r)) }
{
    match read_statement(alloc, tokens, statement)? {
        Err(refusal) => Ok(Err(blame(tokens.len(), refusal))),
        Ok(lacking) => {
            if lacking == 0 {
                Ok(Ok(()))
            } else {
                Ok(Err(Fault {
                    at: tokens.len().saturating_sub(lacking),
                    kind: FaultKind::NoVariable,
                }))
            }
        }
    }
}
