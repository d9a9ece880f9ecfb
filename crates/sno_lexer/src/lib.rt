//! The token stage: the text of a statement to its tokens, each with its offset, or the first fault of the stage.
//!
//! How tokens are written is said in `specs/Written.antt`; how they follow one another, and the faults, in
//! `specs/Following.antt`. `laws` says that what is read of a text is that, and nothing else.
//!
//! Blanks have a meaning in SNOBOL4: they tell a binary operator from a unary one, and alone they concatenate. So a token
//! knows whether a blank stands before it, and whether a blank or the end of the statement follows it.
#![tactic(auto)]

pub mod begin;
pub mod character;
pub mod characters;
pub mod fault;
pub mod laws;
pub mod lexing;
pub mod list;
pub mod make;
pub mod token;
pub mod word;

pub use characters::Characters;
pub use fault::{FaultKind, LexFault};
pub use lexing::lex;
pub use list::Tokens;
pub use token::{Constant, Mark, Outcome, Part, Token, TokenKind};
pub use word::Word;
