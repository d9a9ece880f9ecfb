//! Why a call gives no value: what it was given is refused, or memory is short.

use std::alloc::AllocError;

/// Why a call gives no value.
///
/// What is refused and what memory is short for are told apart: a refusal depends on what was given alone, and `Memory`
/// says nothing of it.
#[derive(Clone, Copy)]
pub enum Stop<R> {
    /// What was given is refused, and why.
    Refused(R),
    /// A growth was refused.
    Memory,
}

impl<R> From<AllocError> for Stop<R> {
    ghost use Rattle.std.specs.Prelude.{◌≡◌};
    ghost use Rattle.mon_text.specs.declared.stop.Stop.TheVariants.{Memory};

    ghost from_gives = { λ _ stop. stop ≡ Memory };

    fn from(_: AllocError) -> Stop<R> {
        Stop::Memory
    }
}
