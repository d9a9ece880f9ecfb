//! Rows that ask the host nothing.
ghost use Rattle.std.specs.Prelude.{◌≡◌, ◌≤◌, length, IfOk};
ghost use Rattle.sno_text.specs.Nodes.{pattern_of};
ghost use Rattle.sno_text.specs.Patterns as rows;
ghost use Rattle.sno_pattern.specs.Steps.{Meet, row, outcome};
ghost use Rattle.sno_pattern.specs.inner.Meeting.{IsQuiet, IsEntered, IsParted};
ghost use Rattle.sno_pattern.specs.inner.Stack.{waiting_of, AllWithin, Led};
ghost use Rattle.sno_pattern.specs.declared.trail.TheConstants.{LAST};

use crate::choice_points::{Ended, Turn, back, balanced, each};
use crate::trail::{Goal, Kind, Role, Trail};
use sno_text::Node;
use sno_text::reach::{Reach, next_balanced, reached};
use std::alloc::AllocError;
use std::rc::Rc;

/// The rest of the goals, and where they fail one more turn of a pattern.
#[inline(always)]
pub(crate) fn one_more(
    text: &[u8],
    pattern: &Rc<Node>,
    at: usize,
    trail: &mut Trail,
    left: u64,
) -> Result<Turn, AllocError>
    requires short { length text.now ≤ LAST }
    requires cursor { at ≤ length text.now }
    requires all { AllWithin (length text.now) trail.old.opens }
    ensures { IfOk result (λ turn. Led text.now trail.old.opens (row text.now (outcome text.now) (Meet (rows.Arbno (pattern_of pattern.now.value))) trail.old.goals at (waiting_of text.now trail.old.waits) left) left turn trail.new left) }
{
    trail.push(Goal {
        role: Role::More(at as u32),
        node: pattern.clone()?,
    })?;
    trail.leave(Kind::Second(pattern.clone()?), at)?;
    trail.pass();
    Ok(Turn::Go(at))
}

/// Goes on, and once more from a pattern where that fails.
fn succeed(
    text: &[u8],
    node: &Rc<Node>,
    at: usize,
    trail: &mut Trail,
    left: u64,
) -> Result<Turn, AllocError>
    requires short { length text.now ≤ LAST }
    requires cursor { at ≤ length text.now }
    requires all { AllWithin (length text.now) trail.old.opens }
    requires succeeds { pattern_of node.now.value ≡ rows.Succeed }
    ensures { IfOk result (λ turn. Led text.now trail.old.opens (row text.now (outcome text.now) (Meet rows.Succeed) trail.old.goals at (waiting_of text.now trail.old.waits) left) left turn trail.new left) }
{
    trail.leave(Kind::Second(node.clone()?), at)?;
    Ok(Turn::Go(at))
}

/// Takes a pattern that has several ends.
#[inline(never)]
fn parted(
    text: &[u8],
    node: &Rc<Node>,
    at: usize,
    trail: &mut Trail,
    left: &mut u64,
) -> Result<Turn, AllocError>
    requires short { length text.now ≤ LAST }
    requires cursor { at ≤ length text.now }
    requires all { AllWithin (length text.now) trail.old.opens }
    requires parted { IsParted (pattern_of node.now.value) }
    ensures { IfOk result (λ turn. Led text.now trail.old.opens (row text.now (outcome text.now) (Meet (pattern_of node.now.value)) trail.old.goals at (waiting_of text.now trail.old.waits) left.old) left.old turn trail.new left.new) }
{
    let top: &Node = node;
    match top {
        Node::Arb => Ok(Turn::Go(each(text, at, trail, left)?)),
        Node::Bal => match next_balanced(text, at) {
            Some(next) => Ok(Turn::Go(balanced(text, next, trail, *left)?)),
            None => back(text, trail, left),
        },
        Node::Arbno(_, p) => one_more(text, p, at, trail, *left),
        Node::Abort => Ok(Turn::Stay(Ended::WholeFails)),
        Node::Fence => {
            trail.leave(Kind::Whole, at)?;
            Ok(Turn::Go(at))
        }
        Node::Succeed => succeed(text, node, at, trail, *left),
        _ => unreachable!(),
    }
}

/// Takes a pattern that asks the host nothing, and none of whose parts is met at once.
pub(crate) fn plain(
    text: &[u8],
    node: &Rc<Node>,
    at: usize,
    trail: &mut Trail,
    left: &mut u64,
) -> Result<Turn, AllocError>
    requires short { length text.now ≤ LAST }
    requires cursor { at ≤ length text.now }
    requires all { AllWithin (length text.now) trail.old.opens }
    requires quiet { IsQuiet (pattern_of node.now.value) }
    requires whole { IsEntered (pattern_of node.now.value) → ⊥ }
    ensures { IfOk result (λ turn. Led text.now trail.old.opens (row text.now (outcome text.now) (Meet (pattern_of node.now.value)) trail.old.goals at (waiting_of text.now trail.old.waits) left.old) left.old turn trail.new left.new) }
{
    match reached(text, node, at) {
        Reach::Here(end) => Ok(Turn::Go(end)),
        Reach::Nowhere => back(text, trail, left),
        Reach::Depends => parted(text, node, at, trail, left),
    }
}
