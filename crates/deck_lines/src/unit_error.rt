//! Why a unit can't be tied to a data set.
ghost use Rattle.std.specs.Prelude.{◌≡◌, ◌<◌, None};
ghost use Rattle.deck_lines.specs.Ties.{refused_by};

use thiserror::Error;

/// Why a unit could not be tied to a data set.
#[derive(Clone, Copy, Debug, Error)]
pub enum UnitError {
    /// Units are 1 to 99.
    #[error("U2 UNIT {0}")]
    UnitRange(u64),
    /// The unit is tied to a data set.
    #[error("U1 UNIT {0}")]
    UnitTwice(u64),
}

/// Why a unit can't be tied, if it can't, by which are tied already.
pub fn tie_refused(tied: &[bool; 100], unit: u64) -> Option<UnitError>
    ensures refusal { result ≡ refused_by unit tied.now }
    ensures within { result ≡ None → unit < 100 }
{
    if unit == 0 || unit > 99 {
        return Some(UnitError::UnitRange(unit));
    }
    if tied[unit as usize] {
        return Some(UnitError::UnitTwice(unit));
    }
    None
}
