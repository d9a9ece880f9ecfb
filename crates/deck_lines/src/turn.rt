//! Turns that a card gives to a slot.
ghost use Rattle.std.specs.Prelude.{◌≡◌, ◌<◌, ◌&&◌, length, IfOk};
ghost use Rattle.mon_text.specs.Counts.{is_count, value_of};
ghost use Rattle.deck_lines.specs.declared.deck_error.DeckError.TheVariants.{BadNumber};
ghost use Rattle.deck_lines.specs.Cards.{word_at};
ghost use Rattle.deck_lines.specs.Refusing.{unless};
ghost use Rattle.deck_lines.specs.Turns.{turn_refusal};
ghost use Rattle.deck_lines.specs.Turns.{turn_on};
ghost use Rattle.deck_lines.specs.inner.Stops.{Answers};

use crate::deck_error::DeckError;
use crate::words::{Words, is_within, number_of};
use mon_text::Stop;

/// How many slots there may be.
const MOST_SLOTS: u64 = 8;

/// How many turns a card gives at the most.
const MOST_TURNS: u64 = 1_000_000;

/// So many turns for a slot, which is counted from 1.
#[derive(Clone, Copy)]
pub struct Turn {
    pub slot: u8,
    pub count: u64,
}

/// The turns that the words of a card give.
pub fn read_turn(words: &Words<'_>) -> Result<Turn, Stop<DeckError>>
    ensures answers { Answers (turn_refusal words.now) result }
    ensures value { IfOk result (λ turn. turn ≡ turn_on words.now) }
{
    if words.len() != 3 {
        return Err(Stop::Refused(DeckError::BadCard));
    }
    let (slot, count) = two_numbers(words)?;
    if !is_within(MOST_SLOTS, slot) || !is_within(MOST_TURNS, count) {
        return Err(Stop::Refused(DeckError::BadCard));
    }
    Ok(Turn {
        slot: slot as u8,
        count,
    })
}

// The two numbers behind a card's first word.
fn two_numbers(words: &Words<'_>) -> Result<(u64, u64), Stop<DeckError>>
    requires { 2 < length words.now }
    ensures answers { Answers (unless (is_count (word_at 1 words.now) && is_count (word_at 2 words.now)) BadNumber) result }
    ensures first { IfOk result (λ numbers. numbers.0 ≡ value_of (word_at 1 words.now)) }
    ensures second { IfOk result (λ numbers. numbers.1 ≡ value_of (word_at 2 words.now)) }
{
    let first = number_of(words.at(1))?;
    let second = number_of(words.at(2))?;
    Ok((first, second))
}
