//! Statements: a line of them cut at each `;` outside literals, as its characters come.
ghost use Rattle.std.specs.Prelude.{◌≡◌, ◌==◌, ◌||◌, ◌+◌, ◌<◌, ◌^◌, ◌++◌, ◌∷◌, [], length, filter, IfOk, OnOk};
ghost use Rattle.mon_text.specs.Lines.{is_blank_line};
ghost use Rattle.sno_cards.specs.Statements.{literal_after, ends_statement, is_statement, placed_on};
ghost use Rattle.sno_cards.specs.inner.Cuts.{cut_of, begun, ended, fed};
ghost use Rattle.std.specs.List.{list_any};
ghost use Rattle.mon_text.specs.Characters.{is_quote};

use crate::text::StatementText;
use memchr::memchr3;
use std::alloc::{AllocError, Global};
use std::mem;

fn is_quote(code: u8) -> bool
    ensures { result ≡ is_quote code }
{
    code == b'\'' || code == b'"'
}

// Which quote has begun a literal that is still open after a character.
fn literal_after(literal: Option<u8>, code: u8) -> Option<u8>
    ensures { result ≡ literal_after literal code }
{
    match literal {
        None if is_quote(code) => Some(code),
        None => None,
        Some(quote) if quote == code => None,
        Some(quote) => Some(quote),
    }
}

fn ends_statement(literal: Option<u8>, code: u8) -> bool
    ensures { result ≡ ends_statement literal code }
{
    literal.is_none() && code == b';'
}

fn is_blank_line(text: &[u8]) -> bool
    ensures { result ≡ is_blank_line text.now }
{
    text.iter().all(|code| *code == b' ')
}

// Whether a text has a character that may begin a literal or end a statement.
fn has_marks(text: &[u8]) -> bool
    ensures { result ≡ list_any (λ c. is_quote c || c == 59) text.now }
{
    memchr3(b'\'', b'"', b';', text).is_some()
}

// Appends a piece of a line, unless it has nothing but blanks.
fn keep(piece: StatementText, statements: &mut Vec<StatementText>) -> Result<(), AllocError>
    ensures { OnOk result (statements.new.items ≡ statements.old.items ++ filter is_statement (piece ∷ [])) }
{
    if is_blank_line(piece.as_bytes()) {
        return Ok(());
    }
    statements.push(piece)?;
    Ok(())
}

/// A line that is being cut: the statements so far, what has begun of the next, and which quote has begun a literal that
/// is still open in it.
#[derive(Drop)]
pub(crate) struct Cutting {
    statements: Vec<StatementText>,
    piece: StatementText,
    literal: Option<u8>,
}

impl Cutting {
    /// A line begins, behind these statements.
    pub(crate) fn new(alloc: Global, statements: Vec<StatementText>) -> Cutting
        ensures { cut_of result ≡ begun statements.items }
    {
        Cutting {
            statements,
            piece: StatementText::new(alloc),
            literal: None,
        }
    }

    // The piece is whole with the characters that stand on a card from a column on; the next begins.
    fn cut(&mut self, alloc: Global, card: u64, column: u64, text: &[u8]) -> Result<(), AllocError>
        requires { column + length text.now < 2 ^ 64 }
        ensures { OnOk result (cut_of self.new ≡ record (cut_of self.old) {
          statements = ended (record (cut_of self.old) { piece = self.old.piece ++ placed_on card column text.now });
          piece = [];
        }) }
    {
        self.piece.append(card, column, text)?;
        let piece = mem::replace(&mut self.piece, StatementText::new(alloc));
        keep(piece, &mut self.statements)
    }

    /// Goes on with characters that stand on a card from a column on.
    ///
    /// # Errors
    ///
    /// Where a growth was refused; a part of them may then have been cut.
    #[tactic(auto, using(crate::proofs::Feeding::unmarked_fed))]
    pub(crate) fn feed(
        &mut self,
        alloc: Global,
        card: u64,
        column: u64,
        text: &[u8],
    ) -> Result<(), AllocError>
        requires { column + length text.now < 2 ^ 64 }
        ensures { OnOk result (cut_of self.new ≡ fed (cut_of self.old) (placed_on card column text.now)) }
    {
        if self.literal.is_none() && !has_marks(text) {
            return self.piece.append(card, column, text);
        }
        let mut from = 0;
        for (index, code) in text.iter().enumerate() {
            if ends_statement(self.literal, *code) {
                self.cut(alloc, card, column + from as u64, &text[from..index])?;
                from = index + 1;
            }
            self.literal = literal_after(self.literal, *code);
        }
        self.piece.append(card, column + from as u64, &text[from..])
    }

    /// The statements, the last piece being whole.
    ///
    /// # Errors
    ///
    /// Where a growth was refused.
    pub(crate) fn end(self) -> Result<Vec<StatementText>, AllocError>
        ensures { IfOk result (λ statements. statements.items ≡ ended (cut_of self)) }
    {
        let mut statements = self.statements;
        keep(self.piece, &mut statements)?;
        Ok(statements)
    }
}
