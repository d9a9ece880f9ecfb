//! From the texts of statements to a program.
ghost use Rattle.std.specs.Prelude.{◌≡◌, [], ◌∷◌, ◌++◌, map, Some, None, IfOk, IfErr, OnOk};
ghost use Rattle.sno_cards.specs.Answers.{IfRefused};
ghost use Rattle.sno_statement.specs.Abstraction.{statement_of};
ghost use Rattle.sno_syntax.specs.Refusals.{label_of, statement_refusal, with_label, labels_in, statements_refusal, syntax_refusal};
ghost use Rattle.sno_syntax.specs.Programs.{program_of, SpellFrom, IsProgram};
ghost use Rattle.sno_syntax.specs.inner.Lasts.{SpellsLast};

use crate::label::Labels;
use crate::program::Program;
use crate::start::{bad_end, start_of};
use crate::statement::{note_label, read_statement};
use mon_text::Stop;
use sno_cards::{ProgramCards, StatementText, SyntaxError};
use sno_statement::{Goto, Statement};
use sno_text::Seed;
use std::alloc::{AllocError, Global};

// All statements, and where their labels stand.
#[derive(Drop)]
struct Body {
    statements: Vec<Statement>,
    labels: Labels,
}

fn push(statements: &mut Vec<Statement>, statement: Statement) -> Result<(), AllocError>
    ensures { OnOk result (statements.new.items ≡ statements.old.items ++ statement ∷ []) }
{
    statements.push(statement)?;
    Ok(())
}

// One statement more.
fn read_next(
    alloc: Global,
    body: &mut Body,
    text: &StatementText,
    index: usize,
) -> Result<(), Stop<SyntaxError>>
    ensures spelled { OnOk result (SpellsLast body.old.labels text.now body.old.statements.items body.new.statements.items) }
    ensures labels { OnOk result (body.new.labels ≡ with_label body.old.labels (label_of text.now) index) }
    ensures refused { IfErr result (IfRefused (λ refusal. statement_refusal body.old.labels text.now ≡ Some refusal)) }
{
    let mut statement = Statement {
        body: None,
        goto: Goto::Next,
    };
    read_statement(alloc, &body.labels, text, &mut statement)?;
    push(&mut body.statements, statement)?;
    note_label(alloc, &mut body.labels, text, index)?;
    Ok(())
}

fn read_statements(
    alloc: Global,
    seed: Seed,
    texts: &[StatementText],
) -> Result<Body, Stop<SyntaxError>>
    ensures spelled { IfOk result (λ body. SpellFrom [] 0 texts.now (map statement_of body.statements.items)) }
    ensures labels { IfOk result (λ body. body.labels ≡ labels_in texts.now) }
    ensures clean { OnOk result (statements_refusal [] 0 texts.now ≡ None) }
    ensures refused { IfErr result (IfRefused (λ refusal. statements_refusal [] 0 texts.now ≡ Some refusal)) }
{
    let mut body = Body {
        statements: Vec::new(alloc),
        labels: Labels::new(alloc, seed),
    };
    for (index, text) in texts.iter().enumerate() {
        read_next(alloc, &mut body, text, index)?;
    }
    Ok(body)
}

/// Reads a program from its cards: its statements, their labels, and where a run begins. What it names, labels and what its runs
/// make, is found by a hash of this seed.
///
/// A label begins in column 1 and runs to a blank. What follows it is the statement, by the grammar of the language: see
/// `docs/reference/language.md`. What follows END names the label where a run begins; where nothing does, a run begins at the first
/// statement, or ends at once where there is none.
///
/// # Errors
///
/// The first refusal, statement by statement and in each from its label on. `Unexpected` for a label that does not begin
/// with a letter or digit; `BadEnd` for the label END; `LabelTaken` for RETURN, FRETURN and a label that was defined
/// before. Then what `lex` refuses. Then the leftmost fault of its grammar: `BlankMissing`, `Unexpected`, or
/// `VariableNeeded` where a variable must stand. Last, `BadEnd` where what follows END is neither blank nor one label.
/// `Memory` where a growth was refused.
pub fn parse(alloc: Global, seed: Seed, cards: &ProgramCards) -> Result<Program, Stop<SyntaxError>>
    ensures program { IfOk result (λ program. IsProgram cards.now (program_of program)) }
    ensures refused { IfErr result (IfRefused (λ refusal. syntax_refusal cards.now ≡ Some refusal)) }
{
    let body = read_statements(alloc, seed, cards.statements())?;
    let count = cards.statements().len();
    let rest = cards.end_rest();
    match start_of(alloc, count, &body.labels, rest.as_bytes())? {
        None => Err(Stop::Refused(bad_end(rest))),
        Some(start) => Ok(Program {
            statements: body.statements,
            labels: body.labels,
            start,
        }),
    }
}
