//! What comes after a goal: how goals are tried at several cursors, and how the last choice is taken.
ghost use Rattle.std.specs.Prelude.{◌≡◌, ◌≢◌, ◌<◌, ◌≤◌, ◌+◌, ◌-◌, ◌∷◌, ℕ, List, length, slice_index, IfOk};
ghost use Rattle.std.specs.List.{range_with_len};
ghost use Rattle.sno_text.specs.Nodes.{pattern_of};
ghost use Rattle.sno_text.specs.Balance.{balanced_ends};
ghost use Rattle.sno_text.specs.inner.Reaching.{reached};
ghost use Rattle.sno_text.specs.declared.reach.Reach.TheVariants.{Nowhere};
ghost use Rattle.sno_pattern.specs.declared.ending.Pending.{Pending as Waits};
ghost use Rattle.sno_pattern.specs.Steps.{Goal as Aim, Meet, Failure, ends, at_each, outcome};
ghost use Rattle.sno_pattern.specs.declared.choice_points.Turn.TheVariants.{Go};
ghost use Rattle.sno_pattern.specs.inner.Stack.{waiting_of, AllWithin, Led};
ghost use Rattle.sno_pattern.specs.declared.trail.TheConstants.{LAST};

use crate::trail::{Kind, Role, Trail};
use memchr::memchr;
use sno_text::reach::{misses, next_balanced};
use sno_text::{Fault, Node};
use std::alloc::AllocError;
use std::rc::Rc;

/// How goals end where they don't come out.
#[derive(Drop)]
pub(crate) enum Ended {
    Failure,
    WholeFails,
    OutOfSteps,
    Fault(Fault),
}

/// What comes after a goal was taken: the goals ahead from a cursor, a pattern before them, or an end.
#[derive(Drop)]
pub(crate) enum Turn {
    Go(usize),
    Meet(Rc<Node>, usize),
    Stay(Ended),
}

/// How many characters come before the first one like this.
fn count_before(rest: &[u8], character: u8) -> usize
    ensures within { result ≤ length rest.now }
    ensures none { (k : ℕ) → k < result → slice_index rest.now k ≢ character }
{
    match memchr(character, rest) {
        Some(place) => place,
        None => rest.len(),
    }
}

/// How many cursors from here on a pattern is missed at for sure, since the first character of its text stands at none of them.
fn missed_ahead(text: &[u8], node: &Node, from: usize) -> usize
    requires { from ≤ length text.now }
    ensures within { from + result ≤ length text.now }
    ensures missed { (k : ℕ) → from ≤ k → k < from + result → reached text.now (pattern_of node.now) k ≡ Nowhere }
{
    match node {
        Node::Text(part) => match part.as_bytes().first() {
            Some(first) => count_before(&text[from..], *first),
            None => 0,
        },
        _ => 0,
    }
}

/// The first cursor from here on where this pattern is not missed at once, or the last one, or where no step is left.
fn skip_node(text: &[u8], node: &Node, from: usize, left: &mut u64) -> usize
    requires { from ≤ length text.now }
    ensures within { result ≤ length text.now }
    ensures fewer { left.new ≤ left.old }
    ensures same { (r : List Aim) (p : List Waits) → at_each (outcome text.now) (Meet (pattern_of node.now) ∷ r) (range_with_len from (length text.now + 1 - from)) p left.old ≡ at_each (outcome text.now) (Meet (pattern_of node.now) ∷ r) (range_with_len result (length text.now + 1 - result)) p left.new }
{
    let mut at = from;
    let mut steps = *left;
    while at < text.len() && steps > 0 && misses(text, node, at) {
        at += 1;
        steps -= 1;
        let count = steps.min(missed_ahead(text, node, at) as u64);
        at += count as usize;
        steps -= count;
    }
    *left = steps;
    at
}

/// The first cursor from here on where the goals ahead are not missed at once, or the last one, or where no step is left.
fn skip(text: &[u8], trail: &Trail, from: usize, left: &mut u64) -> usize
    requires { from ≤ length text.now }
    ensures within { result ≤ length text.now }
    ensures fewer { left.new ≤ left.old }
    ensures same { (p : List Waits) → at_each (outcome text.now) trail.now.goals (range_with_len from (length text.now + 1 - from)) p left.old ≡ at_each (outcome text.now) trail.now.goals (range_with_len result (length text.now + 1 - result)) p left.new }
{
    match trail.first() {
        Some(goal) => match goal.role {
            Role::Meet => skip_node(text, &goal.node, from, left),
            Role::More(_) | Role::EndConditional(_) | Role::EndImmediate(_) => from,
        },
        None => from,
    }
}

/// From which cursor the goals ahead are tried, and where they fail from each later one. It stays a call, and tells a number, which
/// takes no room in its caller's frame.
#[inline(never)]
pub(crate) fn each(
    text: &[u8],
    from: usize,
    trail: &mut Trail,
    left: &mut u64,
) -> Result<usize, AllocError>
    requires short { length text.now ≤ LAST }
    requires cursor { from ≤ length text.now }
    requires all { AllWithin (length text.now) trail.old.opens }
    ensures { IfOk result (λ place. Led text.now trail.old.opens (at_each (outcome text.now) trail.old.goals (range_with_len from (length text.now + 1 - from)) (waiting_of text.now trail.old.waits) left.old) left.old (Go place) trail.new left.new) }
{
    let at = skip(text, trail, from, left);
    if at >= text.len() {
        return Ok(at);
    }
    trail.leave(Kind::Each, at + 1)?;
    Ok(at)
}

/// The same, where they fail from each later one before which parentheses are in pairs.
#[inline(never)]
pub(crate) fn balanced(
    text: &[u8],
    at: usize,
    trail: &mut Trail,
    left: u64,
) -> Result<usize, AllocError>
    requires short { length text.now ≤ LAST }
    requires cursor { at ≤ length text.now }
    requires all { AllWithin (length text.now) trail.old.opens }
    ensures { IfOk result (λ place. Led text.now trail.old.opens (at_each (outcome text.now) trail.old.goals (at ∷ balanced_ends text.now at) (waiting_of text.now trail.old.waits) left) left (Go place) trail.new left) }
{
    match next_balanced(text, at) {
        None => Ok(at),
        Some(next) => {
            trail.leave(Kind::Balanced, next)?;
            Ok(at)
        }
    }
}

/// Goes on with the last choice.
#[inline(always)]
pub(crate) fn back(text: &[u8], trail: &mut Trail, left: &mut u64) -> Result<Turn, AllocError>
    requires short { length text.now ≤ LAST }
    requires all { AllWithin (length text.now) trail.old.opens }
    ensures { IfOk result (λ turn. Led text.now trail.old.opens (ends Failure left.old) left.old turn trail.new left.new) }
{
    match trail.back() {
        None => Ok(Turn::Stay(Ended::Failure)),
        Some((kind, at)) => match kind {
            Kind::Second(node) => Ok(Turn::Meet(node, at)),
            Kind::Each => Ok(Turn::Go(each(text, at, trail, left)?)),
            Kind::Balanced => Ok(Turn::Go(balanced(text, at, trail, *left)?)),
            Kind::Whole => Ok(Turn::Stay(Ended::WholeFails)),
        },
    }
}
