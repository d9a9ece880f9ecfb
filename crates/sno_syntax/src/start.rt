//! Where a run of a program begins, as its END line says it.
ghost use Rattle.std.specs.Prelude.{◌≡◌, [], ◌∷◌, map, not, position, IfOk, ◌==◌, if◌then◌else◌};
ghost use Rattle.mon_text.specs.Characters.{is_blank};
ghost use Rattle.mon_text.specs.Lines.{words};
ghost use Rattle.sno_cards.specs.declared.refusal.SyntaxCode.TheVariants.{BadEnd};
ghost use Rattle.sno_cards.specs.Texts.{text_of};
ghost use Rattle.sno_syntax.specs.Places.{refused_with};
ghost use Rattle.sno_syntax.specs.Refusals.{end_refusal};
ghost use Rattle.sno_syntax.specs.inner.Parts.{begin_of};
ghost use Rattle.sno_syntax.specs.Starts.{start_of};
ghost use Rattle.sno_syntax.specs.declared.start.Start.TheVariants.{End, Statement};

use crate::label::{Labels, is_end};
use crate::place::place_at;
use sno_cards::{Place, StatementText, SyntaxCode, SyntaxError};
use std::alloc::{AllocError, Global};

/// Where a run begins.
#[derive(Clone, Copy, PartialEq, Eq)]
pub enum Start {
    /// At the statement of this index, counted from 0.
    Statement(usize),
    /// At the END line: the run ends at once.
    End,
}

fn first_start(count: usize) -> Start
    ensures { result ≡ (if count == 0 then End else Statement 0) }
{
    if count == 0 {
        Start::End
    } else {
        Start::Statement(0)
    }
}

fn start_named(labels: &Labels, label: &[u8]) -> Option<Start>
    ensures { result ≡ start_of 0 labels.now (label.now ∷ []) }
{
    if is_end(label) {
        Some(Start::End)
    } else {
        labels.find(label).map(Start::Statement)
    }
}

fn words(alloc: Global, text: &[u8]) -> Result<Vec<&[u8]>, AllocError>
    ensures { IfOk result (λ found. map (λ word. word.now) found.items ≡ words text.now) }
{
    text.split(|byte| *byte == b' ')
        .filter(|word| !word.is_empty())
        .collect(alloc)
}

/// What the rest of an END line says, where there are so many statements with these labels: where the run begins, or
/// nothing where it isn't one label.
pub(crate) fn start_of(
    alloc: Global,
    count: usize,
    labels: &Labels,
    rest: &[u8],
) -> Result<Option<Start>, AllocError>
    ensures { IfOk result (λ start. start ≡ start_of count labels.now (words rest.now)) }
{
    let words = words(alloc, rest)?;
    match words.as_slice() {
        [] => Ok(Some(first_start(count))),
        [word] => Ok(start_named(labels, word)),
        _ => Ok(None),
    }
}

fn ink_in(text: &[u8]) -> Option<usize>
    ensures { result ≡ position (λ c. not (is_blank c)) text.now }
{
    text.iter().position(|byte| *byte != b' ')
}

// Where a text begins that isn't blank.
fn begin_of(text: &StatementText) -> Place
    ensures { result ≡ begin_of text.now }
{
    place_at(text, ink_in(text.as_bytes()).unwrap_or(text.len()))
}

/// The refusal of an END line that has something else after END than one label of the program.
pub(crate) fn bad_end(rest: &StatementText) -> SyntaxError
    ensures { result ≡ refused_with BadEnd (begin_of rest.now) }
{
    SyntaxError {
        code: SyntaxCode::BadEnd,
        place: begin_of(rest),
    }
}

/// Why the END line is refused, if it is, where there are so many statements with these labels and this stands behind END:
/// `BadEnd`, where it is neither blank nor one of the labels.
///
/// # Errors
///
/// Where a growth was refused.
pub fn end_refusal(
    alloc: Global,
    count: usize,
    labels: &Labels,
    rest: &StatementText,
) -> Result<Option<SyntaxError>, AllocError>
    ensures { IfOk result (λ refusal. refusal ≡ end_refusal rest.now (start_of count labels.now (words (text_of rest.now)))) }
{
    match start_of(alloc, count, labels, rest.as_bytes())? {
        Some(_) => Ok(None),
        None => Ok(Some(bad_end(rest))),
    }
}
