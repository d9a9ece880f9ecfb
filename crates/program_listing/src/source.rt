//! The cards of a program, also where some of them are refused.

use crate::program::put_cards;
use crate::rows::begin_of;
use load_refusal::LoadError;
use mon_text::{Line, Stop, read_line};
use sno_syntax::{Place, ProgramCards, StatementText, SyntaxCode, SyntaxError, statements};
use std::alloc::{AllocError, Global};

/// How many cards of a program are looked past at the most.
pub const MOST_REPAIRS: u64 = 1_000;

/// What can be read of a program.
#[derive(Drop)]
pub struct Source {
    /// Its cards; nothing where more than 1,000 of them are refused.
    pub cards: Option<ProgramCards>,
    /// Why it is refused, behind the first of its cards that is: the further cards that are, and then, as if each of these
    /// were a comment and there were an END line, its statements and that line. Nothing where no card is refused.
    pub further: Vec<LoadError>,
}

impl Source {
    /// The number of the statement at a place, as the rows of the listing have it: of the last that begins there or before. 0 where
    /// there is none, as from the END line on.
    pub fn statement_at(&self, place: Place) -> u64 {
        match &self.cards {
            Some(cards) if place.card < cards.data_from() as u64 => begun_at(
                cards.statements(),
                place,
            ),
            _ => 0,
        }
    }
}

// How many statements have begun at a place.
fn begun_at(texts: &[StatementText], place: Place) -> u64 {
    for (begun, text) in texts.iter().enumerate() {
        let begin = begin_of(text);
        if begin.card > place.card || (begin.card == place.card && begin.column > place.column) {
            return begun as u64;
        }
    }
    texts.len() as u64
}

/// Reads what can be read of a program.
///
/// # Errors
///
/// Where a growth was refused.
pub fn read_source(alloc: Global, lines: &[Line]) -> Result<Source, AllocError> {
    match statements(alloc, lines) {
        Ok(cards) => Ok(Source {
            cards: Some(cards),
            further: Vec::new(alloc),
        }),
        Err(Stop::Refused(refusal)) => read_mended(alloc, lines, refusal),
        Err(Stop::Memory) => Err(AllocError),
    }
}

// Reads a program behind the first card that is refused.
fn read_mended(alloc: Global, lines: &[Line], refusal: SyntaxError) -> Result<Source, AllocError> {
    let mut lines = copied(alloc, lines)?;
    mend(alloc, &mut lines, refusal)?;
    let mut further = Vec::new(alloc);
    for _ in 0..MOST_REPAIRS {
        match statements(alloc, &lines) {
            Ok(cards) => {
                put_cards(alloc, &cards, &mut further)?;
                let cards = Some(cards);
                return Ok(Source { cards, further });
            }
            Err(Stop::Refused(next)) => {
                further.push(LoadError::Syntax(next))?;
                mend(alloc, &mut lines, next)?;
            }
            Err(Stop::Memory) => return Err(AllocError),
        }
    }
    Ok(Source {
        cards: None,
        further,
    })
}

fn copied(alloc: Global, lines: &[Line]) -> Result<Vec<Line>, AllocError> {
    let mut copied = Vec::new(alloc);
    for line in lines {
        let line = line.copy(alloc)?;
        copied.push(line)?;
    }
    Ok(copied)
}

// Makes a comment of a card that is refused, or puts an END line behind all, where it is that which is missing.
fn mend(alloc: Global, lines: &mut Vec<Line>, refusal: SyntaxError) -> Result<(), AllocError> {
    let lacks_end = matches!(refusal.code, SyntaxCode::NoEndLine);
    let text = if lacks_end {
        b"END".as_slice()
    } else {
        b"*".as_slice()
    };
    let Ok(card) = read_line(alloc, text, text.len()) else {
        return Err(AllocError);
    };
    let index = refusal.place.card.saturating_sub(1) as usize;
    if lacks_end {
        lines.push(card)?;
    } else if index < lines.len() {
        lines[index] = card;
    }
    Ok(())
}
