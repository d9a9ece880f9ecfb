//! Values for several variables.
ghost use Rattle.std.specs.Prelude.{◌≡◌, ◌∷◌, [], length, OnOk, MatchOption};

use sno_text::Named;
use sno_value::Value;
use std::alloc::{AllocError, Global};
use std::marker::Model;

/// Values of variables, as a stack.
#[derive(Drop)]
pub struct Bindings {
    // The first one stands last.
    bindings: Vec<(Named, Value)>,
}

impl Model for Bindings {
    ghost use Rattle.std.specs.Prelude.{ℕ, List, reverse};
    ghost use Rattle.std.specs.Coded.{codes};
    ghost use Rattle.sno_text.specs.inner.Codes.{pattern_code};
    ghost use Rattle.sno_value.specs.declared.value.Value.{Value as Held};

    ghost Value = { List (List ℕ × Held) };

    ghost coded = { Prim.hlevel (codes, pattern_code) };

    ghost view = { λ b. reverse b.bindings.items };
}

impl Bindings {
    /// No values.
    pub fn new(alloc: Global) -> Bindings
        ensures { result ≡ [] }
    {
        Bindings {
            bindings: Vec::new(alloc),
        }
    }

    /// How many there are.
    pub fn len(&self) -> usize
        ensures { result ≡ length self.now }
    {
        self.bindings.len()
    }

    /// Puts a variable's value before the others.
    ///
    /// # Errors
    ///
    /// Where a growth was refused.
    pub fn push(&mut self, name: Named, value: Value) -> Result<(), AllocError>
        ensures { OnOk result (self.new ≡ (name, value) ∷ self.old) }
    {
        self.bindings.push((name, value))?;
        Ok(())
    }

    /// Takes the first one.
    pub fn pop(&mut self) -> Option<(Named, Value)>
        ensures { MatchOption result (self.old ≡ []) (λ b. self.old ≡ b ∷ self.new) }
    {
        self.bindings.pop()
    }
}
