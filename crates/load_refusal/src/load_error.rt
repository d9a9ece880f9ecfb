//! Why a job is not loaded.

use deck_lines::UnitError;
use sno_syntax::SyntaxError;

/// Why a job is not loaded.
#[derive(Clone, Copy)]
pub enum LoadError {
    /// Each slot has a job.
    NoSlot,
    /// There is no account of its name.
    NoAccount,
    /// A unit card ties a unit that there is not, or once more.
    Cards(UnitError),
    /// The program is refused.
    Syntax(SyntaxError),
}
