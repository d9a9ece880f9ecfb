//! Why unit cards are refused: each by itself.
ghost use Rattle.std.specs.Prelude.{◌≡◌, ◌++◌, false, replicate, OnOk};
ghost use Rattle.deck_lines.specs.Ties.{refused_by};
ghost use Rattle.deck_lint.specs.Refused.{tie_listed, tied_after, ties_refused};

use deck_lines::tie_refused;
use deck_syntax::UnitCard;
use load_refusal::LoadError;
use std::alloc::AllocError;

// One card more: why it is refused; or its unit is tied.
fn put_tie(unit: u64, tied: &mut [bool; 100], found: &mut Vec<LoadError>) -> Result<(), AllocError>
    ensures found { OnOk result (found.new.items ≡ found.old.items ++ tie_listed (refused_by unit tied.old)) }
    ensures tied { OnOk result (tied.new ≡ tied_after (refused_by unit tied.old) unit tied.old) }
{
    match tie_refused(tied, unit) {
        Some(error) => {
            found.push(LoadError::Cards(error))?;
            Ok(())
        }
        None => {
            tied[unit as usize] = true;
            Ok(())
        }
    }
}

/// Puts why unit cards are refused last. A card that is refused ties nothing.
///
/// # Errors
///
/// Where a growth was refused; some may have been put then.
pub(crate) fn put_ties(cards: &[UnitCard], found: &mut Vec<LoadError>) -> Result<(), AllocError>
    ensures { OnOk result (found.new.items ≡ found.old.items ++ ties_refused cards.now (replicate 100 false)) }
{
    let mut tied = [false; 100];
    for card in cards {
        put_tie(card.unit, &mut tied, found)?;
    }
    Ok(())
}
