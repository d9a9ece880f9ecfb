//! A statement's text, to the statement or its refusal.
ghost use Rattle.std.specs.Prelude.{◌≡◌, Some, Ok, Err, IfOk, IfErr, OnOk};
ghost use Rattle.sno_cards.specs.Answers.{IfRefused};
ghost use Rattle.sno_statement.specs.{Abstraction.{statement_of}, Statements.{Says, NoBody, NoGoto}};
ghost use Rattle.sno_syntax.specs.Refusals.{token_place, fault_refusal, label_of, tokens_of, stage_refusal, statement_refusal, with_label};
ghost use Rattle.sno_syntax.specs.inner.Parts.{code_of_fault};
ghost use Rattle.sno_syntax.specs.Programs.{TextSpells, SpellsBehind};

use crate::label::{Labels, label_fault, label_in};
use crate::lexing::tokens_of;
use crate::place::{end_of, place_at};
use mon_text::Stop;
use sno_cards::{Place, StatementText, SyntaxCode, SyntaxError};
use sno_statement::{Fault, FaultKind, Goto, Statement, parse_statement};
use std::alloc::{AllocError, Global};

fn code_of_fault(kind: FaultKind) -> SyntaxCode
    ensures { result ≡ code_of_fault kind }
{
    match kind {
        FaultKind::MissingBlank => SyntaxCode::BlankMissing,
        FaultKind::Unfit => SyntaxCode::Unexpected,
        FaultKind::NoVariable => SyntaxCode::VariableNeeded,
    }
}

// Where a token stands, or the end where there is none.
fn token_place(text: &StatementText, offsets: &[usize], index: usize) -> Place
    ensures { result ≡ token_place text.now offsets.now index }
{
    if index < offsets.len() {
        place_at(text, offsets[index])
    } else {
        end_of(text)
    }
}

fn fault_refusal(text: &StatementText, offsets: &[usize], fault: Fault) -> SyntaxError
    ensures { result ≡ fault_refusal text.now offsets.now fault }
{
    SyntaxError {
        code: code_of_fault(fault.kind),
        place: token_place(text, offsets, fault.at),
    }
}

// What a statement says behind its label.
fn read_body(
    alloc: Global,
    text: &StatementText,
    statement: &mut Statement,
) -> Result<(), Stop<SyntaxError>>
    requires { statement_of statement.old ≡ Says NoBody NoGoto }
    ensures spelled { OnOk result (TextSpells text.now (statement_of statement.new)) }
    ensures refused { IfErr result (IfRefused (λ refusal. stage_refusal text.now (tokens_of text.now) ≡ Some refusal)) }
{
    let tokens = tokens_of(alloc, text)?;
    match parse_statement(alloc, tokens.tokens(), statement)? {
        Ok(()) => Ok(()),
        Err(fault) => Err(Stop::Refused(fault_refusal(text, tokens.offsets(), fault))),
    }
}

/// Reads a statement into one that does nothing and goes on, where these labels are defined before it; or tells why it is
/// refused.
///
/// # Errors
///
/// Its refusal, and `Memory` where a growth was refused.
pub(crate) fn read_statement(
    alloc: Global,
    labels: &Labels,
    text: &StatementText,
    statement: &mut Statement,
) -> Result<(), Stop<SyntaxError>>
    requires { statement_of statement.old ≡ Says NoBody NoGoto }
    ensures spelled { OnOk result (SpellsBehind labels.now text.now (statement_of statement.new)) }
    ensures refused { IfErr result (IfRefused (λ refusal. statement_refusal labels.now text.now ≡ Some refusal)) }
{
    if let Some(code) = label_fault(labels, label_in(text.as_bytes())) {
        let place = place_at(text, 0);
        return Err(Stop::Refused(SyntaxError { code, place }));
    }
    read_body(alloc, text, statement)
}

/// Why a statement is refused, if it is, where these labels are defined before it: its label, else its first fault, as
/// `parse` has them.
///
/// # Errors
///
/// Where a growth was refused.
pub fn statement_refusal(
    alloc: Global,
    labels: &Labels,
    text: &StatementText,
) -> Result<Option<SyntaxError>, AllocError>
    ensures { IfOk result (λ refusal. refusal ≡ statement_refusal labels.now text.now) }
{
    let mut statement = Statement {
        body: None,
        goto: Goto::Next,
    };
    let read = read_statement(alloc, labels, text, &mut statement);
    drop(statement);
    match read {
        Ok(()) => Ok(None),
        Err(Stop::Refused(refusal)) => Ok(Some(refusal)),
        Err(Stop::Memory) => Err(AllocError),
    }
}

/// Notes where the label of a statement stands, if it has one.
///
/// # Errors
///
/// Where a growth was refused.
pub fn note_label(
    alloc: Global,
    labels: &mut Labels,
    text: &StatementText,
    index: usize,
) -> Result<(), AllocError>
    ensures { OnOk result (labels.new ≡ with_label labels.old (label_of text.now) index) }
{
    let label = label_in(text.as_bytes());
    if label.is_empty() {
        return Ok(());
    }
    labels.insert(alloc, label, index)
}
