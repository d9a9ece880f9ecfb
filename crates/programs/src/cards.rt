//! Cards and programs, from the text of a case.
use anyhow::{Context, Result};
use mon_text::{Line, Stop, read_line};
use sno_syntax::{Program, SyntaxError, parse, statements};
use sno_text::Seed;
use std::alloc::{AllocError, Global};

/// How many characters a card has at the most.
const CARD_LIMIT: usize = 200;

/// A program, or why there is none.
pub type Answer = Result<Program, Stop<SyntaxError>>;

/// Reads a text as a line of so many characters at the most.
pub fn line_of(alloc: Global, text: &str, limit: usize) -> Result<Line> {
    read_line(alloc, text.as_bytes(), limit)
        .ok()
        .context("a line is too long, or has a bad character")
}

/// The program that has the lines of a text as its cards.
pub fn program_of(alloc: Global, text: &str) -> Result<Answer> {
    let mut cards = Vec::new(alloc);
    for line in text.lines() {
        let card = line_of(alloc, line, CARD_LIMIT)?;
        cards.push(card).map_err(AllocError::from)?;
    }
    Ok(parsed(alloc, &cards))
}

fn parsed(alloc: Global, cards: &[Line]) -> Answer {
    let statements = statements(alloc, cards)?;
    parse(alloc, Seed::fixed(), &statements)
}
