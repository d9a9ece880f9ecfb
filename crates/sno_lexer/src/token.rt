//! The tokens of a statement, as the token stage gives them and the grammar takes them.
//!
//! Blanks have a meaning in SNOBOL4: they tell a binary operator from a unary one, and alone they concatenate. So a token
//! knows whether a blank stands before it, and whether a blank or the end of the statement follows it.
use crate::word::Word;
use mon_text::Line;

/// What an operator is written with.
#[derive(Clone, Copy)]
pub enum Mark {
    /// `**`
    Power,
    /// `*`
    Star,
    /// `/`
    Slash,
    /// `+`
    Plus,
    /// `-`
    Minus,
    /// `|`
    Bar,
    /// `.`
    Dot,
    /// `$`
    Dollar,
    /// `@`
    At,
    /// `~`
    Tilde,
    /// `?`
    Question,
    /// `&`
    Ampersand,
}

/// How a statement may end, as its goto names it: `S` or `F`.
#[derive(Clone, Copy)]
pub enum Outcome {
    Success,
    Failure,
}

/// A value that is written out.
#[derive(Drop)]
pub enum Constant {
    /// What stands between the quotes.
    Literal(Line),
    Integer(i64),
}

/// What may stand in a statement and in no expression.
#[derive(Drop)]
pub enum Part<'a> {
    /// `=`
    Equals,
    /// `:`
    Colon,
    /// The `S` or `F` of a goto.
    On(Outcome),
    /// The label of a goto's target.
    Label(Word<'a>),
}

/// What a token is, whatever blanks stand round it.
#[derive(Drop)]
pub enum TokenKind<'a> {
    Identifier(Word<'a>),
    Constant(Constant),
    Mark(Mark),
    /// `(`
    Open,
    /// `)`
    Close,
    /// `<`
    OpenAngle,
    /// `>`
    CloseAngle,
    Comma,
    Part(Part<'a>),
}

/// A token, and whether blanks stand round it. Its names are those of the text that it was read from.
#[derive(Drop)]
pub struct Token<'a> {
    /// Does a blank stand before it? At the beginning of a statement's body there is one.
    pub blank_before: bool,
    /// Does a blank, or the end of the statement, follow it?
    pub blank_after: bool,
    pub kind: TokenKind<'a>,
}
