//! The column at which a line of the deck is refused, and what its first word says.

use deck_lines::{Card, DeckError, Words};
use mon_text::{read_count, read_name};

/// Whether a card may begin something in the stream.
pub fn is_stream_card(card: Card) -> bool {
    match card {
        Card::Create | Card::Delete | Card::SetAcl | Card::ShowAcl | Card::List => true,
        Card::Catalog | Card::Job | Card::Turn | Card::Drain | Card::Stop => true,
        _ => false,
    }
}

/// Whether a line is refused for its characters or their number, and so nowhere else is read.
pub fn is_line_code(code: DeckError) -> bool {
    matches!(code, DeckError::LineTooLong | DeckError::BadCharacter)
}

/// The column at which a word begins, counted from 0; behind the text, where it has no such word.
pub fn word_column(text: &[u8], wanted: usize) -> u64 {
    let mut begun: usize = 0;
    let mut before = b' ';
    for (index, byte) in text.iter().enumerate() {
        if before == b' ' && *byte != b' ' {
            if begun == wanted {
                return index as u64 + 1;
            }
            begun = begun.saturating_add(1);
        }
        before = *byte;
    }
    (text.len() as u64).saturating_add(1)
}

/// The column at which a line is refused for a code: of the character, or of the word, where it is one of these. A line may
/// have so many characters.
pub(crate) fn column_of(code: DeckError, text: &[u8], limit: usize) -> u64 {
    match code {
        DeckError::LineTooLong => (limit as u64).saturating_add(1),
        DeckError::BadCharacter => bad_column(text),
        DeckError::BadName => word_column(text, bad_word(text, true)),
        DeckError::BadNumber => word_column(text, bad_word(text, false)),
        _ => word_column(text, 0),
    }
}

// The column of the first character that no line may have.
fn bad_column(text: &[u8]) -> u64 {
    match text.iter().position(|byte| !(b' '..=b'~').contains(byte)) {
        Some(index) => (index as u64).saturating_add(1),
        None => 1,
    }
}

// The place of the first word that has to be a name, or else a number or an option with one, and is none.
fn bad_word(text: &[u8], is_name: bool) -> usize {
    let words = Words::of(text);
    let from = match words.card() {
        None if is_name => 0,
        Some(Card::Tie) if is_name => 2,
        Some(Card::Job) if !is_name => 2,
        _ => 1,
    };
    for place in from..words.len() {
        let is_good = match words.at(place) {
            name if is_name => read_name(name).is_ok(),
            [b'S', b'T', b'=', number @ ..] => read_count(number).is_ok(),
            [b'M', b'A', b'T', b'C', b'H', b'=', number @ ..] => read_count(number).is_ok(),
            number => read_count(number).is_ok(),
        };
        if !is_good {
            return place;
        }
    }
    0
}
