//! Why a program is refused: each of its statements by itself, and its END line.
ghost use Rattle.std.specs.Prelude.{◌≡◌, ◌++◌, [], OnOk, IfOk};
ghost use Rattle.sno_cards.specs.Statements.{statements_of};
ghost use Rattle.sno_syntax.specs.Refusals.{label_of, with_label, labels_in, statement_refusal};
ghost use Rattle.program_listing.specs.Refused.{syntax_listed, statements_refused, cards_refused, program_refused};

use load_refusal::LoadError;
use mon_text::{Line, Stop};
use sno_syntax::{
    Labels, ProgramCards, StatementText, SyntaxError, end_refusal, note_label, statement_refusal,
    statements,
};
use sno_text::Seed;
use std::alloc::{AllocError, Global};

// Puts a refusal last, if it is one.
fn put_refusal(refusal: Option<SyntaxError>, found: &mut Vec<LoadError>) -> Result<(), AllocError>
    ensures { OnOk result (found.new.items ≡ found.old.items ++ syntax_listed refusal) }
{
    match refusal {
        None => Ok(()),
        Some(error) => {
            found.push(LoadError::Syntax(error))?;
            Ok(())
        }
    }
}

// One statement more.
fn put_statement(
    alloc: Global,
    labels: &mut Labels,
    text: &StatementText,
    index: usize,
    found: &mut Vec<LoadError>,
) -> Result<(), AllocError>
    ensures found { OnOk result (found.new.items ≡ found.old.items ++ syntax_listed (statement_refusal labels.old text.now)) }
    ensures labels { OnOk result (labels.new ≡ with_label labels.old (label_of text.now) index) }
{
    let refusal = statement_refusal(alloc, labels, text)?;
    put_refusal(refusal, found)?;
    note_label(alloc, labels, text, index)
}

// Puts why statements are refused, each behind the labels of those before it. It answers the labels of all.
fn put_statements(
    alloc: Global,
    texts: &[StatementText],
    found: &mut Vec<LoadError>,
) -> Result<Labels, AllocError>
    ensures found { OnOk result (found.new.items ≡ found.old.items ++ statements_refused [] 0 texts.now) }
    ensures labels { IfOk result (λ labels. labels ≡ labels_in texts.now) }
{
    let mut labels = Labels::new(alloc, Seed::fixed());
    for (index, text) in texts.iter().enumerate() {
        put_statement(alloc, &mut labels, text, index, found)?;
    }
    Ok(labels)
}

/// Puts why the cards of a program are refused last: of each statement, and of the END line.
///
/// # Errors
///
/// Where a growth was refused; some may have been put then.
pub fn put_cards(
    alloc: Global,
    cards: &ProgramCards,
    found: &mut Vec<LoadError>,
) -> Result<(), AllocError>
    ensures { OnOk result (found.new.items ≡ found.old.items ++ cards_refused cards.now) }
{
    let labels = put_statements(alloc, cards.statements(), found)?;
    let count = cards.statements().len();
    let refusal = end_refusal(alloc, count, &labels, cards.end_rest())?;
    put_refusal(refusal, found)
}

/// Puts why a program is refused last: the first card that makes it none, or else each statement that is refused, and the
/// END line.
///
/// # Errors
///
/// Where a growth was refused; some may have been put then.
pub fn put_program(
    alloc: Global,
    lines: &[Line],
    found: &mut Vec<LoadError>,
) -> Result<(), AllocError>
    ensures { OnOk result (found.new.items ≡ found.old.items ++ program_refused (statements_of lines.now)) }
{
    match statements(alloc, lines) {
        Ok(cards) => put_cards(alloc, &cards, found),
        Err(Stop::Refused(error)) => put_refusal(Some(error), found),
        Err(Stop::Memory) => Err(AllocError),
    }
}
