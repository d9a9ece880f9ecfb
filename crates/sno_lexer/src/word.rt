//! A name or a label, as it stands in the text of a statement.
ghost use Rattle.std.specs.Prelude.{◌≡◌, IfOk};
ghost use Rattle.mon_text.specs.Lines.{IsLine};

use crate::characters::Characters;
use mon_text::Line;
use std::alloc::{AllocError, Global};
use std::marker::Model;

/// A piece of a statement's text, which it borrows: ASCII 32 to 126.
///
/// A contract sees it as its characters.
#[derive(Drop)]
pub struct Word<'a> {
    text: &'a [u8],
}

impl<'a> Model for Word<'a> {
    ghost use Rattle.std.specs.Prelude.{ℕ, List};
    ghost use Rattle.mon_text.specs.Lines.{IsLine};

    ghost Value = { List ℕ };

    ghost view = { λ w. w.text.now };

    ghost invariant = { λ w. IsLine w.text.now };
}

impl<'a> Word<'a> {
    /// These characters.
    pub fn new(text: &'a [u8]) -> Word<'a>
        requires { IsLine text.now }
        ensures { result ≡ text.now }
    {
        Word { text }
    }

    /// The line that has these characters.
    ///
    /// # Errors
    ///
    /// Where a growth was refused.
    pub fn line(&self, alloc: Global) -> Result<Line, AllocError>
        ensures { IfOk result (λ line. line ≡ self.now) }
    {
        let room = Vec::with_capacity(alloc, self.text.len())?;
        Ok(Line::in_room(room, self.text))
    }

    /// These characters by themselves.
    ///
    /// # Errors
    ///
    /// Where a growth was refused.
    #[inline(always)]
    pub fn characters(&self, alloc: Global) -> Result<Characters, AllocError>
        ensures { IfOk result (λ c. c ≡ self.now) }
    {
        Characters::of_slice(alloc, self.text)
    }
}
