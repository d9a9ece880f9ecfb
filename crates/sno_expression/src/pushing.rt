//! One more operand on an open spine: each operator is opened and closed once, whatever the depth.

ghost use Rattle.std.specs.Prelude.{◌≡◌, true, not, IfOk};
ghost use Rattle.sno_expression.specs.Expressions.{Fits, is_right_associative};
ghost use Rattle.sno_expression.specs.inner.Reading.{push};
ghost use Rattle.sno_expression.specs.inner.Spines.{is_element, is_ordered, is_under_all};
ghost use Rattle.sno_expression.specs.Abstraction.{expression_of};
ghost use Rattle.sno_expression.specs.inner.Runs.{spread_all};
ghost use Rattle.sno_expression.specs.inner.Told.{spine_tree};

use crate::growing::join;
use crate::spine::Spine;
use crate::tree::{BinaryOperator, Expression, Operands, Pending, binds_into_right};
use std::alloc::{AllocError, Global};

// One more operator, the innermost, with its operands.
#[inline(always)]
#[tactic(auto, using(crate::proofs::Spines::ordered_pushed, crate::proofs::Spines::grown_pushed))]
fn nest(
    pending: Vec<Pending>,
    left: Expression,
    operator: BinaryOperator,
    operand: Expression,
) -> Result<Spine, AllocError>
    requires ordered { is_ordered pending.items ≡ true }
    requires under { is_under_all operator pending.items ≡ true }
    requires fits { Fits (not (is_right_associative operator)) operator (expression_of left) }
    requires element { is_element operand ≡ true }
    ensures { IfOk result (λ s. spine_tree s ≡ push operator (expression_of operand) (spread_all pending.items (expression_of left))) }
{
    let mut pending = pending;
    pending.push(Pending { left, operator })?;
    Ok(Spine {
        pending,
        last: operand,
    })
}

/// Whether the operator may stand under all that are open, as it may where it may stand under the innermost.
#[inline(always)]
#[tactic(auto, using(crate::proofs::Spines::under_last))]
fn goes_under(operator: BinaryOperator, pending: &[Pending]) -> bool
    requires { is_ordered pending.now ≡ true }
    ensures { result ≡ is_under_all operator pending.now }
{
    match pending.split_last() {
        None => true,
        Some((outer, _)) => binds_into_right(operator, outer.operator),
    }
}

// The innermost operators are closed that the new one may not stand under; what they make is its left operand.
#[tactic(auto, using(crate::proofs::Spines::ordered_popped, crate::proofs::Spines::spread_popped))]
pub(crate) fn grow(
    alloc: Global,
    operator: BinaryOperator,
    operand: Expression,
    pending: Vec<Pending>,
    last: Expression,
) -> Result<Spine, AllocError>
    requires ordered { is_ordered pending.items ≡ true }
    requires fits { Fits (not (is_right_associative operator)) operator (expression_of last) }
    requires element { is_element operand ≡ true }
    ensures { IfOk result (λ s. spine_tree s ≡ push operator (expression_of operand) (spread_all pending.items (expression_of last))) }
{
    let mut pending = pending;
    if goes_under(operator, pending.as_slice()) {
        return nest(pending, last, operator, operand);
    }
    match pending.pop() {
        None => nest(pending, last, operator, operand),
        Some(outer) => {
            let last = join(alloc, outer.operator, outer.left, last)?;
            grow(alloc, operator, operand, pending, last)
        }
    }
}

/// One more operand, at once where nothing has to be closed before it.
#[inline(always)]
pub(crate) fn extend(
    alloc: Global,
    operator: BinaryOperator,
    operand: Expression,
    pending: Vec<Pending>,
    last: Expression,
) -> Result<Spine, AllocError>
    requires ordered { is_ordered pending.items ≡ true }
    requires fits { Fits (not (is_right_associative operator)) operator (expression_of last) }
    requires element { is_element operand ≡ true }
    ensures { IfOk result (λ s. spine_tree s ≡ push operator (expression_of operand) (spread_all pending.items (expression_of last))) }
{
    if goes_under(operator, pending.as_slice()) {
        return nest(pending, last, operator, operand);
    }
    grow(alloc, operator, operand, pending, last)
}

// All operators closed: they lie side by side behind the outermost.
fn close_all(
    alloc: Global,
    pending: Vec<Pending>,
    last: Expression,
) -> Result<Expression, AllocError>
    ensures { IfOk result (λ t. expression_of t ≡ spread_all pending.items (expression_of last)) }
{
    if pending.is_empty() {
        return Ok(last);
    }
    let mut run = pending;
    let Pending { left, operator } = run.remove(0);
    run.shrink_to_fit();
    let operands = Box::new(alloc, Operands { left, run, last })?;
    Ok(Expression::Binary(operator, operands))
}

/// The tree, when no more operands come.
#[inline(always)]
pub(crate) fn closed(alloc: Global, spine: Spine) -> Result<Expression, AllocError>
    ensures { IfOk result (λ t. expression_of t ≡ spine_tree spine) }
{
    let Spine { pending, last } = spine;
    close_all(alloc, pending, last)
}
