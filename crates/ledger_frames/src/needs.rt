//! Which data sets a text needs.
ghost use Rattle.std.specs.Prelude.{List, IfOk};
ghost use Rattle.deck_syntax.specs.Decks.{Asked};
ghost use Rattle.preflight.specs.Submissions.{IsAdmitted};
ghost use Rattle.ledger_frames.specs.Needs.{AreEnough};

use ledger_sets::Which;
use parts::Text;
use preflight::Submission;
use std::alloc::{AllocError, Global};
use text_names::text_of;

/// So many names are looked through for each data set.
const MOST_NAMES: usize = 1_000;

/// Which data sets are enough for a text that was admitted: those that its cards name; all of them where it makes one, asks which there are,
/// or has more than 1,000 names.
///
/// # Errors
///
/// Where a growth was refused.
pub fn enough_for(alloc: Global, text: &Submission) -> Result<Which, AllocError>
    ensures { IfOk result (λ which. (asked : List Asked) → IsAdmitted text.now asked → AreEnough asked which) }
{
    if text.tally.creates > 0 {
        return Ok(Which::All);
    }
    let read = text_of(alloc, 0, 0, &text.text)?;
    if read.all || read.names.len() > MOST_NAMES {
        return Ok(Which::All);
    }
    let Text { names, .. } = read;
    Ok(Which::Named(names))
}
