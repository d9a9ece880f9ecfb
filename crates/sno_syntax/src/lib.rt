//! Programs: from cards to trees, or the first refusal.
//!
//! `statements` makes the texts of the statements from cards, `lex` the tokens of one of them, and `parse` the program.
//! `statement_refusal` and `end_refusal` say what is refused by itself, for whoever asks for more than the first refusal.
#![tactic(auto)]

pub mod label;
pub mod laws;
pub mod lexing;
pub mod place;
pub mod program;
pub mod reading;
pub mod start;
pub mod statement;

pub use label::{Labels, label_in};
pub use lexing::lex;
pub use program::Program;
pub use reading::parse;
pub use sno_cards::{Place, ProgramCards, StatementText, SyntaxCode, SyntaxError, statements};
pub use sno_lexer::Tokens;
pub use start::{Start, end_refusal};
pub use statement::{note_label, statement_refusal};
