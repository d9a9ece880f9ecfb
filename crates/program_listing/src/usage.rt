//! How names are used, and which of them the language has.

use sno_lexer::{Mark, Part, Token, TokenKind, Word};
use sno_store::{Keyword, StateFunction};
use sno_value::primitive_named;
use std::alloc::{AllocError, Global};

/// How a name is used.
#[derive(Clone, Copy)]
pub(crate) enum Usage {
    /// `:(L)`
    Goto,
    /// `F(..)`
    Call,
    /// `T<..>`
    Item,
    /// `&K`
    Keyword,
    /// `*V (..)`
    Later,
    /// Otherwise.
    Variable,
}

/// The name that the token at an index is, and how it is used.
pub(crate) fn name_at<'a, 'b>(
    tokens: &'b [Token<'a>],
    index: usize,
) -> Option<(&'b Word<'a>, Usage)> {
    match &tokens.get(index)?.kind {
        TokenKind::Part(Part::Label(word)) => Some((word, Usage::Goto)),
        TokenKind::Identifier(word) => Some((word, usage_at(tokens, index))),
        _ => None,
    }
}

// How the identifier at an index is used: what stands before and behind it, with no blank between, tells.
fn usage_at(tokens: &[Token<'_>], index: usize) -> Usage {
    let mut opens = false;
    if let Some(next) = tokens.get(index.saturating_add(1)) {
        match &next.kind {
            TokenKind::Open if !next.blank_before => return Usage::Call,
            TokenKind::OpenAngle if !next.blank_before => return Usage::Item,
            TokenKind::Open => opens = true,
            _ => {}
        }
    }
    match tokens.get(index.saturating_sub(1)) {
        Some(mark) if !mark.blank_after => match &mark.kind {
            TokenKind::Mark(Mark::Ampersand) => Usage::Keyword,
            TokenKind::Mark(Mark::Star) if opens => Usage::Later,
            _ => Usage::Variable,
        },
        _ => Usage::Variable,
    }
}

/// Whether the language has a name for what is used so: a function, a keyword, or a variable that reads or writes.
pub(crate) fn is_named(name: &[u8], usage: Usage) -> bool {
    match usage {
        Usage::Call => StateFunction::named(name).is_some() || primitive_named(name).is_some(),
        Usage::Keyword => Keyword::named(name).is_some(),
        Usage::Variable => matches!(name, b"INPUT" | b"OUTPUT" | b"PUNCH"),
        Usage::Goto | Usage::Item | Usage::Later => false,
    }
}

/// The name of the function that this prototype, given to DEFINE, defines: what stands before its first parenthesis, without blanks.
pub(crate) fn defined_by(alloc: Global, prototype: &[u8]) -> Result<Vec<u8>, AllocError> {
    let mut name = Vec::new(alloc);
    for code in prototype {
        if *code == b'(' {
            return Ok(name);
        }
        if *code != b' ' {
            name.push(*code)?;
        }
    }
    Ok(name)
}
