//! What is written out in a statement, and lets it fail whenever it runs: names of files where there are none, arguments that are
//! evaluated too late, numbers that a keyword does not take.

use crate::loose_name::LooseKind;
use crate::usage::Usage;
use mon_text::Line;
use sno_declarations::read_format;
use sno_lexer::{Constant, Mark, Part, Token, TokenKind};
use sno_store::keyword::MOST_CHARACTERS;

/// How a name of the language, which the token at an index is, is misused there, if it is; and the index of the token that it
/// is told of.
pub(crate) fn misuse_at(
    tokens: &[Token<'_>],
    at: usize,
    name: &[u8],
    usage: Usage,
) -> Option<(LooseKind, usize)> {
    match usage {
        Usage::Call if matches!(name, b"INPUT" | b"OUTPUT") => file_at(tokens, at, name),
        Usage::Call if needs_value(name) => later_at(tokens, at),
        Usage::Keyword => Some((misused_number(tokens, at, name)?, at)),
        _ => None,
    }
}

/// The literal at an index, if one is there.
pub(crate) fn literal_at<'b>(tokens: &'b [Token<'_>], index: usize) -> Option<&'b Line> {
    match &tokens.get(index)?.kind {
        TokenKind::Constant(Constant::Literal(text)) => Some(text),
        _ => None,
    }
}

// A file's name among the last arguments of INPUT or OUTPUT.
fn file_at(tokens: &[Token<'_>], at: usize, name: &[u8]) -> Option<(LooseKind, usize)> {
    if let Some(third) = argument_at(tokens, at, 2) {
        if let Some(text) = literal_at(tokens, third) {
            if !is_length(name, text.as_bytes()) {
                return Some((LooseKind::File, third));
            }
        }
    }
    let fourth = argument_at(tokens, at, 3)?;
    literal_at(tokens, fourth)?;
    Some((LooseKind::File, fourth))
}

// Whether a third argument says how long records are, or nothing.
fn is_length(name: &[u8], text: &[u8]) -> bool {
    if name == b"INPUT".as_slice() {
        text.iter().all(|code| code.is_ascii_digit())
    } else {
        text.is_empty() || read_format(text).is_some()
    }
}

// Whether a function makes a pattern of a number or of characters.
fn needs_value(name: &[u8]) -> bool {
    match name {
        b"LEN" | b"POS" | b"RPOS" | b"TAB" | b"RTAB" => true,
        b"ANY" | b"NOTANY" | b"SPAN" | b"BREAK" => true,
        _ => false,
    }
}

// The first argument of a call, where it is `*V` alone.
fn later_at(tokens: &[Token<'_>], at: usize) -> Option<(LooseKind, usize)> {
    let first = argument_at(tokens, at, 0)?;
    let star = tokens.get(first)?;
    let behind = tokens.get(first.saturating_add(2))?;
    let is_star = matches!(&star.kind, TokenKind::Mark(Mark::Star)) && !star.blank_after;
    if is_star && matches!(&behind.kind, TokenKind::Comma | TokenKind::Close) {
        Some((LooseKind::LaterArgument, first))
    } else {
        None
    }
}

// How a keyword, whose name is at an index, is set to a number out of its range, if it is.
fn misused_number(tokens: &[Token<'_>], at: usize, name: &[u8]) -> Option<LooseKind> {
    let TokenKind::Part(Part::Equals) = &tokens.get(at.saturating_add(1))?.kind else {
        return None;
    };
    let behind = at.saturating_add(2);
    let is_minus = matches!(&tokens.get(behind)?.kind, TokenKind::Mark(Mark::Minus));
    let index = behind.saturating_add(if is_minus { 1 } else { 0 });
    let TokenKind::Constant(Constant::Integer(number)) = &tokens.get(index)?.kind else {
        return None;
    };
    let is_less = is_minus && *number > 0;
    match name {
        b"STLIMIT" if is_less => Some(LooseKind::Statements),
        b"MAXLNGTH" if is_less || *number > MOST_CHARACTERS as i64 => Some(LooseKind::Characters),
        _ => None,
    }
}

// Where an argument of a call begins, counted from 0, whose name is the token at an index, if there are so many.
fn argument_at(tokens: &[Token<'_>], at: usize, number: usize) -> Option<usize> {
    let mut open: usize = 0;
    let mut passed: usize = 0;
    for index in at.saturating_add(1)..tokens.len() {
        match &tokens[index].kind {
            TokenKind::Open | TokenKind::OpenAngle => open = open.saturating_add(1),
            TokenKind::Close | TokenKind::CloseAngle => open = open.saturating_sub(1),
            TokenKind::Comma if open == 1 => passed = passed.saturating_add(1),
            _ => {}
        }
        if open == 0 {
            return None;
        }
        if open == 1 && passed == number {
            return index.checked_add(1);
        }
    }
    None
}
