//! From the cards of a program to its statements, its END line and its data.
ghost use Rattle.std.specs.Prelude.{◌≡◌, ◌<◌, length, slice_get, false, Ok, Err, IfOk, IfErr, IsOk, IsErrOf, OnSome};
ghost use Rattle.std.specs.Option.{option_copied};
ghost use Rattle.sno_cards.specs.Answers.{IfRefused};
ghost use Rattle.sno_cards.specs.Cards.{rest_of_end_line};
ghost use Rattle.sno_cards.specs.Statements.{card_refusal, refused_card, first_refusal, numbered, placed_on, statements_on, end_index, program_ended_by, statements_of};

use crate::card::{CardKind, end_index, is_start, kind_of, rest_of_end_line};
use crate::lines::cut_line;
use crate::program::ProgramCards;
use crate::refusal::{Place, SyntaxCode, SyntaxError};
use crate::text::StatementText;
use mon_text::{Line, Stop};
use std::alloc::{AllocError, Global};

fn card_refusal(begun: bool, kind: CardKind) -> Option<SyntaxCode>
    ensures { result ≡ card_refusal begun kind }
{
    match kind {
        CardKind::UnknownControl => Some(SyntaxCode::UnknownControlCard),
        CardKind::Continuation if !begun => Some(SyntaxCode::NothingToContinue),
        _ => None,
    }
}

fn refused_card(card: u64, code: SyntaxCode) -> SyntaxError
    ensures { result ≡ refused_card card code }
{
    SyntaxError {
        code,
        place: Place { card, column: 1 },
    }
}

// The first refusal of a card before the END line.
fn first_refusal(lines: &[Line]) -> Option<SyntaxError>
    ensures { result ≡ first_refusal false (numbered 1 lines.now) }
{
    let mut begun = false;
    for (index, line) in lines.iter().enumerate() {
        let kind = kind_of(line.as_bytes());
        if let Some(code) = card_refusal(begun, kind) {
            return Some(refused_card(index as u64 + 1, code));
        }
        begun = begun || is_start(kind);
    }
    None
}

// The statements of the lines before the END line.
fn statements_on(alloc: Global, lines: &[Line]) -> Result<Vec<StatementText>, AllocError>
    ensures { IfOk result (λ found. found.items ≡ statements_on (numbered 1 lines.now)) }
{
    let mut statements = Vec::new(alloc);
    for (index, line) in lines.iter().enumerate() {
        let text = line.as_bytes();
        if is_start(kind_of(text)) {
            let later = &lines[index + 1..];
            statements = cut_line(alloc, index as u64 + 1, text, later, statements)?;
        }
    }
    Ok(statements)
}

// The rest of the END line, which is this card.
fn end_rest(alloc: Global, card: u64, text: &[u8]) -> Result<StatementText, AllocError>
    ensures { IfOk result (λ rest. rest ≡ placed_on card 4 (rest_of_end_line text.now)) }
{
    let mut rest = StatementText::new(alloc);
    rest.append(card, 4, rest_of_end_line(text))?;
    Ok(rest)
}

fn line_at(lines: &[Line], index: usize) -> Option<&Line>
    ensures line { option_copied result ≡ slice_get lines.now index }
    ensures within { OnSome result (index < length lines.now) }
{
    lines.get(index)
}

// The program whose END line is this one, the first.
fn program(
    alloc: Global,
    lines: &[Line],
    end: usize,
    end_line: &Line,
) -> Result<ProgramCards, AllocError>
    requires first { end ≡ end_index lines.now }
    requires there { end < length lines.now }
    ensures { IfOk result (λ program. program ≡ program_ended_by end_line.now lines.now) }
{
    let statements = statements_on(alloc, &lines[..end])?;
    let end_rest = end_rest(alloc, end as u64 + 1, end_line.as_bytes())?;
    Ok(ProgramCards::new(statements, end_rest, end + 1))
}

/// Reads the cards of a program: the texts of its statements, the rest of its END line, and where its data begin.
///
/// By its first character a line is a comment (`*`), a control card (`-`), a continuation (`+` or `.`) or the start of a
/// new line of statements. A continuation is joined to the line before it, its mark read as a blank, whatever comments
/// and control cards stand between. A joined line is cut at each `;` outside literals, and pieces without another
/// character than blanks are dropped. The first line with END in columns 1 to 3, and then a blank, `;` or nothing, ends
/// the program; the data come after it.
///
/// # Errors
///
/// The first refusal: card by card up to the END line, `NothingToContinue` for a continuation with no line of
/// statements before it and `UnknownControlCard` for a control card other than `-LIST`, `-UNLIST` and `-EJECT`; then
/// `NoEndLine`, at the card after the last. All stand in column 1, and take no memory. `Memory` where a growth was refused.
#[tactic(auto, using(crate::proofs::Programs::programs))]
pub fn statements(alloc: Global, lines: &[Line]) -> Result<ProgramCards, Stop<SyntaxError>>
    ensures program { IfOk result (λ program. statements_of lines.now ≡ Ok program) }
    ensures refused { IfErr result (IfRefused (λ refusal. statements_of lines.now ≡ Err refusal)) }
    ensures memory { IsErrOf result Stop.Memory → IsOk (statements_of lines.now) }
{
    let end = end_index(lines);
    if let Some(refusal) = first_refusal(&lines[..end]) {
        return Err(Stop::Refused(refusal));
    }
    let Some(end_line) = line_at(lines, end) else {
        let card = lines.len() as u64 + 1;
        return Err(Stop::Refused(refused_card(card, SyntaxCode::NoEndLine)));
    };
    Ok(program(alloc, lines, end, end_line)?)
}
