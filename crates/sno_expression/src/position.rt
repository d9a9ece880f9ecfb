//! What a token may begin or open, and which place stands further left.

ghost use Rattle.std.specs.Prelude.{◌≡◌};
ghost use Rattle.sno_expression.specs.inner.Reading.{opens_bracket};
ghost use Rattle.sno_expression.specs.inner.Telling.{begins_variable, most, begins};

use crate::tree::{Prefix, prefix_of};
use sno_lexer::{Mark, TokenKind};

/// Whether the token is a bracket that makes a call, or the table of an item, of an identifier before it.
pub(crate) fn opens_bracket(before: bool, kind: &TokenKind) -> bool
    ensures { result ≡ opens_bracket before kind.now }
{
    match kind {
        TokenKind::Open | TokenKind::OpenAngle => !before,
        _ => false,
    }
}

pub(crate) fn begins_variable(kind: &TokenKind) -> bool
    ensures { result ≡ begins_variable kind.now }
{
    match kind {
        TokenKind::Identifier(_) => true,
        TokenKind::Mark(Mark::Dollar) => true,
        _ => false,
    }
}

/// The place further left: more tokens are left there.
pub fn most(first: usize, second: usize) -> usize
    ensures { result ≡ most first second }
{
    if first <= second { second } else { first }
}

/// Whether the token begins an operand.
pub fn begins(after: bool, kind: &TokenKind) -> bool
    ensures { result ≡ begins after kind.now }
{
    match kind {
        TokenKind::Identifier(_) | TokenKind::Constant(_) | TokenKind::Open => true,
        TokenKind::Mark(mark) => {
            if after {
                return false;
            }
            match prefix_of(*mark) {
                Some(Prefix::OfOperand(_)) => true,
                Some(Prefix::OfIdentifier(_)) => true,
                None => false,
            }
        }
        _ => false,
    }
}
