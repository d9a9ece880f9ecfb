//! Codes in words.

use deck_lines::DeckError;

/// What a code says of a line of the deck.
pub(crate) fn cause_of(code: DeckError) -> &'static str {
    match code {
        DeckError::BadName => "a name begins with a letter and has 1 to 31 characters",
        DeckError::BadNumber => "a number has 1 to 19 digits",
        DeckError::BadCharacter => "only the characters from blank to ~ are allowed",
        DeckError::LineTooLong => "the line has more characters than may be",
        DeckError::AccountTwice => "an account of that name is further up",
        DeckError::TooManyGroups => "an account has at most 16 further groups",
        DeckError::NameTaken => "a data set of that name is further up",
        DeckError::SetFull => "a data set has at most 100,000 records",
        DeckError::CatalogueFull => "a catalogue has at most 1,000 data sets",
        DeckError::BadText => "it is not what has to stand here",
        DeckError::UnknownCard => "the first word is no card",
        DeckError::BadCard => "the card has other words than it may",
        DeckError::OutOfPlace => "the card may not stand here",
        DeckError::Truncated => "the deck ends before its $STOP",
    }
}
