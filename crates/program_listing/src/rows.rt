//! The rows of a source listing: deck line, card, statements, text.

use crate::source::Source;
use mon_text::{Line, put_number};
use sno_syntax::{Place, StatementText};
use std::alloc::AllocError;

/// No place at all: cards and columns are counted from 1.
const NOWHERE: Place = Place { card: 0, column: 0 };

/// Where the character at an index stands.
pub(crate) fn place_at(text: &StatementText, index: usize) -> Place {
    if index < text.len() {
        text.place(index)
    } else {
        NOWHERE
    }
}

/// Appends the rows of a program and the number of its lines of data. Its first card stands on this line of the deck.
///
/// # Errors
///
/// Where a growth was refused; some rows may have been appended then.
pub fn put_rows(
    first_line: u64,
    lines: &[Line],
    source: &Source,
    out: &mut Vec<u8>,
) -> Result<(), AllocError> {
    out.extend_from_slice(b"   LINE  CARD  STATEMENT\n")?;
    let Some(cards) = &source.cards else {
        return put_cards(first_line, lines, &[], out);
    };
    let texts = cards.statements();
    let end = cards.data_from();
    if end > lines.len() {
        return put_cards(first_line, lines, texts, out);
    }
    let (program, data) = lines.split_at(end);
    put_cards(first_line, program, texts, out)?;
    out.extend_from_slice(b"DATA ")?;
    put_number(data.len() as u64, out)?;
    out.extend_from_slice(b"\n")
}

/// Where a text begins that isn't blank.
pub(crate) fn begin_of(text: &StatementText) -> Place {
    match text.as_bytes().iter().position(|byte| *byte != b' ') {
        Some(index) => place_at(text, index),
        None => NOWHERE,
    }
}

// Appends a row for each card. These are the statements that begin on them.
fn put_cards(
    first_line: u64,
    lines: &[Line],
    texts: &[StatementText],
    out: &mut Vec<u8>,
) -> Result<(), AllocError> {
    let mut from = 0;
    for (index, line) in lines.iter().enumerate() {
        let card = index as u64 + 1;
        let past = past_card(texts, from, card);
        put_padded(first_line.saturating_add(index as u64), 7, out)?;
        put_padded(card, 6, out)?;
        put_statements(from as u64, past as u64, out)?;
        out.extend_from_slice(b"  ")?;
        out.extend_from_slice(line.as_bytes())?;
        out.extend_from_slice(b"\n")?;
        from = past;
    }
    Ok(())
}

// The index behind the statements from an index on that begin on this card.
fn past_card(texts: &[StatementText], from: usize, card: u64) -> usize {
    for index in from..texts.len() {
        if begin_of(&texts[index]).card != card {
            return index;
        }
    }
    texts.len()
}

// Appends which statements begin on a card, by the indices before and behind them.
fn put_statements(from: u64, past: u64, out: &mut Vec<u8>) -> Result<(), AllocError> {
    let mut numbers = Vec::new(*out.allocator());
    let first = from.saturating_add(1);
    if past >= first {
        put_number(first, &mut numbers)?;
    }
    if past > first {
        numbers.extend_from_slice(b"-")?;
        put_number(past, &mut numbers)?;
    }
    put_right(&numbers, 11, out)
}

// Appends a number so that it ends so many places further on.
fn put_padded(number: u64, width: usize, out: &mut Vec<u8>) -> Result<(), AllocError> {
    let mut digits = Vec::new(*out.allocator());
    put_number(number, &mut digits)?;
    put_right(&digits, width, out)
}

// Appends a text behind so many blanks that both have this width.
fn put_right(text: &[u8], width: usize, out: &mut Vec<u8>) -> Result<(), AllocError> {
    for _ in text.len()..width {
        out.push(b' ')?;
    }
    out.extend_from_slice(text)
}
