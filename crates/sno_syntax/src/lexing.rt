//! The tokens of a statement.
ghost use Rattle.std.specs.Prelude.{◌≡◌, Ok, Err, IfOk, IfErr, IsOk, IsErrOf};
ghost use Rattle.sno_cards.specs.Answers.{IfRefused};
ghost use Rattle.sno_syntax.specs.Refusals.{lex_refusal, tokens_of, lexed_text};
ghost use Rattle.sno_syntax.specs.inner.Parts.{code_of_lex};

use crate::label::{is_bad_label, label_in, label_length};
use crate::place::place_at;
use mon_text::Stop;
use sno_cards::{StatementText, SyntaxCode, SyntaxError};
use sno_lexer::{FaultKind, LexFault, Tokens};
use std::alloc::Global;

fn code_of_lex(kind: FaultKind) -> SyntaxCode
    ensures { result ≡ code_of_lex kind }
{
    match kind {
        FaultKind::BadConstant => SyntaxCode::BadConstant,
        FaultKind::Foreign => SyntaxCode::Unexpected,
        FaultKind::TooMany => SyntaxCode::StatementTooLarge,
    }
}

fn lex_refusal(text: &StatementText, fault: LexFault) -> SyntaxError
    ensures { result ≡ lex_refusal text.now fault }
{
    SyntaxError {
        code: code_of_lex(fault.kind),
        place: place_at(text, fault.offset),
    }
}

/// The tokens behind the label of a statement, or the first fault of theirs.
pub(crate) fn tokens_of(
    alloc: Global,
    text: &StatementText,
) -> Result<Tokens<'_>, Stop<SyntaxError>>
    ensures tokens { IfOk result (λ tokens. tokens_of text.now ≡ Ok tokens) }
    ensures refused { IfErr result (IfRefused (λ refusal. tokens_of text.now ≡ Err refusal)) }
    ensures memory { IsErrOf result Stop.Memory → IsOk (tokens_of text.now) }
{
    let bytes = text.as_bytes();
    match sno_lexer::lex(alloc, bytes, label_length(bytes))? {
        Ok(tokens) => Ok(tokens),
        Err(fault) => Err(Stop::Refused(lex_refusal(text, fault))),
    }
}

/// Reads the tokens of a statement's text, behind its label.
///
/// # Errors
///
/// The first refusal: `Unexpected` for a label that begins with something else than a letter or digit; then, from left to
/// right, `BadConstant` for a literal that is not closed and an integer above 9,223,372,036,854,775,807, `Unexpected` for
/// a character that begins no token, and `StatementTooLarge` at the 101st open parenthesis or `<` and the 1,001st token. A label
/// that may not stand there, as END, is told by `parse` alone. `Memory` where a growth was refused, and only for a text
/// that is not refused.
pub fn lex(alloc: Global, text: &StatementText) -> Result<Tokens<'_>, Stop<SyntaxError>>
    ensures tokens { IfOk result (λ tokens. lexed_text text.now ≡ Ok tokens) }
    ensures refused { IfErr result (IfRefused (λ refusal. lexed_text text.now ≡ Err refusal)) }
    ensures memory { IsErrOf result Stop.Memory → IsOk (lexed_text text.now) }
{
    if is_bad_label(label_in(text.as_bytes())) {
        return Err(Stop::Refused(SyntaxError {
            code: SyntaxCode::Unexpected,
            place: place_at(text, 0),
        }));
    }
    tokens_of(alloc, text)
}
