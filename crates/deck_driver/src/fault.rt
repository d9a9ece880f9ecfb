//! Why a run does not come to its end.
use deck_lines::DeckError;
use std::alloc::AllocError;

/// Why a run did not come to its end.
#[derive(Clone, Copy, PartialEq, Eq)]
pub enum RunError {
    /// The deck is refused at this line, counted from 1.
    DeckRefused(u64, DeckError),
    /// The reader failed, or 4,294,967,295 reads were made and more was to come.
    ReadFault,
    /// The writer failed.
    WriteFault,
    /// The audit was not taken.
    AuditFault,
    /// A growth was refused.
    Memory,
}

impl From<AllocError> for RunError {
    ghost use Rattle.std.specs.Prelude.{◌≡◌};
    ghost use Rattle.deck_driver.specs.declared.fault.RunError.TheVariants.{Memory};

    ghost from_gives = { λ _ fault. fault ≡ Memory };

    fn from(_: AllocError) -> RunError {
        RunError::Memory
    }
}
