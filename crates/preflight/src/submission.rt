//! Texts that an account hands in.
ghost use Rattle.std.specs.Prelude.{◌≡◌, List, IfOk, IfErr};
ghost use Rattle.std.specs.Str.Lines.{lines};
ghost use Rattle.deck_syntax.specs.Decks.{Asked};
ghost use Rattle.preflight.specs.Examined.{IsFirstWrong};
ghost use Rattle.preflight.specs.Submissions.{IfStopped, IsAdmitted, lines_of};

use crate::intake::count;
use crate::tally::Tally;
use crate::why::Refusal;
use deck_syntax::whole_lines;
use mon_text::{Name, Stop};
use std::alloc::Global;

/// A text that is admitted.
#[derive(Drop)]
pub struct Submission {
    /// Whose it is.
    pub account: Name,
    /// The text, with each line ended by LF.
    pub text: Vec<u8>,
    /// What it asks for, in numbers.
    pub tally: Tally,
}

/// Whether an account may hand in a text. Its lines are taken as the reader of decks takes them: a CR before an LF belongs to the
/// line end, and the last line may have none.
///
/// # Errors
///
/// The first line that is wrong, and why; `Memory` where a growth was refused.
pub fn examine(alloc: Global, own: &Name, text: &[u8]) -> Result<Submission, Stop<Refusal>>
    ensures admitted { IfOk result (λ kept. (asked : List Asked) × IsAdmitted kept asked) }
    ensures account { IfOk result (λ kept. kept.account ≡ own.now) }
    ensures lines { IfOk result (λ kept. lines_of kept ≡ lines text.now) }
    ensures refused { IfErr result (IfStopped (λ refusal. IsFirstWrong own.now refusal.line (lines text.now) refusal.why)) }
{
    let counted = count(alloc, own, text)?;
    let whole = whole_lines(alloc, text)?;
    let bytes = whole.len() as u64;
    Ok(Submission {
        account: own.copy(),
        text: whole,
        tally: Tally { bytes, ..counted },
    })
}
