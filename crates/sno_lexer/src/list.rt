//! Tokens with their offsets.
ghost use Rattle.std.specs.Prelude.{◌≡◌, length};

use crate::token::Token;
use std::marker::Model;

/// The tokens of a text, and for each the index of its first character. Their names are those of the text.
///
/// A contract sees them as two lists, which have the same length.
#[derive(Drop)]
pub struct Tokens<'a> {
    tokens: Vec<Token<'a>>,
    offsets: Vec<usize>,
}

impl<'a> Model for Tokens<'a> {
    ghost use Rattle.std.specs.Prelude.{◌≡◌, length};
    ghost use Rattle.sno_lexer.specs.Listed.{TokenList};

    ghost Value = { TokenList };

    ghost view = { λ t. record { tokens = t.tokens.items; offsets = t.offsets.items } };

    ghost invariant = { λ t. length t.tokens.items ≡ length t.offsets.items };
}

impl<'a> Tokens<'a> {
    pub(crate) fn new(tokens: Vec<Token<'a>>, offsets: Vec<usize>) -> Tokens<'a>
        requires { length tokens.items ≡ length offsets.items }
        ensures { result ≡ record { tokens = tokens.entry.items; offsets = offsets.items } }
    {
        Tokens { tokens, offsets }
    }

    /// The tokens, in order.
    pub fn tokens(&self) -> &[Token<'a>]
        ensures value { result.now ≡ self.now.tokens }
        ensures as_many { length self.now.tokens ≡ length self.now.offsets }
    {
        &self.tokens
    }

    /// The index of each token's first character, counted from 0, from the beginning of the text.
    pub fn offsets(&self) -> &[usize]
        ensures value { result.now ≡ self.now.offsets }
        ensures as_many { length self.now.tokens ≡ length self.now.offsets }
    {
        &self.offsets
    }
}
