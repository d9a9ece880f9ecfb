//! The right spine of a tree that is being read, open at its end.

ghost use Rattle.std.specs.Prelude.{◌≡◌, true};
ghost use Rattle.sno_expression.specs.inner.Spines.{is_element, is_ordered};

use crate::tree::{BinaryOperator, Expression, Pending};

/// A tree by its right spine.
#[derive(Drop)]
pub(crate) struct Spine {
    /// The innermost last.
    pub(crate) pending: Vec<Pending>,
    /// The operand at the right end.
    pub(crate) last: Expression,
    ghost ordered: { is_ordered pending.items ≡ true },
    ghost element: { is_element last ≡ true },
}

/// The operand that comes next behind another, where one token tells it, and how many tokens lead to what follows it.
#[derive(Drop)]
pub(crate) struct Plain {
    pub(crate) operator: BinaryOperator,
    pub(crate) operand: Expression,
    pub(crate) taken: usize,
    ghost element: { is_element operand ≡ true },
}
