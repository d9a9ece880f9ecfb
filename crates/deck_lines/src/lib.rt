//! What a deck's lines are made of: words, cards, commands and turns, which units a job's cards can tie, and the codes of
//! refusals. It knows no section, and no program, guard or machine.
#![tactic(auto)]

pub mod card;
pub mod command;
pub mod deck_error;
pub mod turn;
pub mod unit_error;
pub mod words;

pub use card::{Card, card_of};
pub use command::Command;
pub use deck_error::{DeckError, stop_of_account, stop_of_catalogue, stop_of_line};
pub use turn::{Turn, read_turn};
pub use unit_error::{UnitError, tie_refused};
pub use words::{
    MOST_LINE_CHARACTERS, Words, begins_with_dollar, check_line, from_blank, from_word, is_blank,
    is_within, line_of, line_refusal, name_of, number_of,
};
