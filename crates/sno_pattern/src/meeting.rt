//! Patterns met: what a pattern is made of is met at once, without a goal of its own in memory, as far as that can be.
ghost use Rattle.std.specs.Prelude.{◌≡◌, ◌<◌, ◌≤◌, ◌+◌, ◌*◌, ◌∷◌, length, IfOk, OnErr};
ghost use Rattle.std.specs.Option.{MatchOption};
ghost use Rattle.interaction.specs.Holding.{StopsIn};
ghost use Rattle.sno_text.specs.Nodes.{pattern_of};
ghost use Rattle.sno_pattern.specs.declared.choice_points.Ended.TheVariants.{OutOfSteps};
ghost use Rattle.sno_pattern.specs.declared.host.Taken.TheVariants.{Cursor};
ghost use Rattle.sno_pattern.specs.declared.choice_points.Turn.TheVariants.{Stay};
ghost use Rattle.sno_pattern.specs.Looks.{Fits};
ghost use Rattle.sno_pattern.specs.Steps.{Meet, outcome};
ghost use Rattle.sno_pattern.specs.inner.Meeting.{pattern_met, IsPlain};
ghost use Rattle.sno_pattern.specs.inner.Stack.{Second, goal_as, waiting_of, AllWithin, Entering, Led, Moved, resume, rank, assigning};
ghost use Rattle.sno_pattern.specs.declared.trail.TheConstants.{LAST};

use crate::choice_points::{Ended, Turn};
use crate::consuming::{assigned, looked};
use crate::host::{MatchHost, Taken};
use crate::steps::plain;
use crate::trail::{Goal, Kind, Role, Trail};
use sno_text::reach::{Reach, misses, reached};
use sno_text::{Named, Node, Text};
use std::alloc::{AllocError, Global};
use std::rc::Rc;

/// Puts a goal before the others.
#[inline(always)]
fn put(role: Role, pattern: &Rc<Node>, trail: &mut Trail) -> Result<(), AllocError>
    ensures { IfOk result (λ u. trail.new ≡ record { goals = goal_as role (pattern_of pattern.now.value) ∷ trail.old.goals; waits = trail.old.waits; opens = trail.old.opens }) }
{
    let node = pattern.clone()?;
    Ok(trail.push(Goal { role, node })?)
}

/// Leaves a pattern to be tried where the one before it fails.
#[inline(always)]
fn leave(other: &Rc<Node>, at: usize, trail: &mut Trail) -> Result<(), AllocError>
    requires { at ≤ LAST }
    ensures { IfOk result (λ u. trail.new ≡ record { goals = trail.old.goals; waits = trail.old.waits; opens = record { trial = Second (pattern_of other.now.value); goals = trail.old.goals; at = at; waits = trail.old.waits } ∷ trail.old.opens }) }
{
    let node = other.clone()?;
    Ok(trail.leave(Kind::Second(node), at)?)
}

/// A part that has no parts, told apart where it is found: one that asks the host what its variable is, one that has the cursor
/// assigned, or another.
#[derive(Clone, Copy)]
pub(crate) enum Part<'a> {
    Defer(&'a Named),
    Cursor(&'a Text),
    Plain(&'a Rc<Node>),
}

/// Goes down to the part of a pattern that is met first and has no parts, and takes the steps on the way; not where they end.
fn descend<'a>(
    text: &[u8],
    pattern: &'a Rc<Node>,
    from: usize,
    trail: &mut Trail,
    left: &mut u64,
) -> Result<Option<(Part<'a>, usize)>, AllocError>
    requires short { length text.now ≤ LAST }
    requires cursor { from ≤ length text.now }
    requires all { AllWithin (length text.now) trail.old.opens }
    ensures { IfOk result (λ found. MatchOption found (Led text.now trail.old.opens (outcome text.now (Meet (pattern_of pattern.now.value) ∷ trail.old.goals) from (waiting_of text.now trail.old.waits) left.old) left.old (Stay OutOfSteps) trail.new left.new) (λ part. Entering text.now trail.old.opens (outcome text.now (Meet (pattern_of pattern.now.value) ∷ trail.old.goals) from (waiting_of text.now trail.old.waits) left.old) left.old (pattern_met part.0) trail.new.goals part.1 (waiting_of text.now trail.new.waits) trail.new.opens left.new × IsPlain part.0)) }
{
    let mut node = pattern;
    let mut at = from;
    while *left > 0 {
        *left -= 1;
        let top: &Node = node;
        match top {
            // A first part that ends in one place is passed at once, and what is behind one that fails is not kept.
            Node::Cat(_, a, b) => match reached(text, a, at) {
                Reach::Here(end) if *left > 0 => {
                    *left -= 1;
                    at = end;
                    node = b;
                }
                Reach::Nowhere => node = a,
                _ => {
                    put(Role::Meet, b, trail)?;
                    node = a;
                }
            },
            // No choice is left for one that fails.
            Node::Alt(_, a, b) => {
                if *left > 0 && misses(text, a, at) {
                    *left -= 1;
                    node = b;
                } else {
                    leave(b, at, trail)?;
                    node = a;
                }
            }
            Node::Conditional(_, p, _) => {
                put(Role::EndConditional(at as u32), node, trail)?;
                node = p;
            }
            Node::Immediate(_, p, _) => {
                put(Role::EndImmediate(at as u32), node, trail)?;
                node = p;
            }
            Node::Defer(variable) => return Ok(Some((Part::Defer(variable), at))),
            Node::Cursor(variable) => return Ok(Some((Part::Cursor(variable), at))),
            _ => return Ok(Some((Part::Plain(node), at))),
        }
    }
    Ok(None)
}

/// Asks for the assignment of a cursor.
fn assign_cursor<H: MatchHost>(
    text: &[u8],
    variable: &Text,
    at: usize,
    trail: &mut Trail,
    left: &mut u64,
    host: &mut H,
) -> Result<Turn, AllocError>
    requires ready { H.ready host.old }
    requires short { length text.now ≤ LAST }
    requires cursor { at ≤ length text.now }
    requires all { AllWithin (length text.now) trail.old.opens }
    ensures moved { IfOk result (λ turn. Moved H.tells H.broken text.now host.old trail.old.opens (assigning text.now variable.now (Cursor at) trail.old.goals at (waiting_of text.now trail.old.waits) left.old) left.old host.new turn trail.new left.new) }
    ensures cut { OnErr result (StopsIn H.tells Fits H.broken (resume text.now trail.old.opens (assigning text.now variable.now (Cursor at) trail.old.goals at (waiting_of text.now trail.old.waits) left.old)) host.old host.new) }
    ensures ready { H.ready host.new }
{
    let taken = Taken::Cursor(at as u64);
    match assigned(text, variable, taken, at, trail, left, host) {
        Ok(turn) => Ok(turn),
        Err(e) => Err(e),
    }
}

/// Meets a pattern, and then what its variable stands for as long as that is met next, with the goals ahead behind it. So a
/// pattern that begins with itself is met again and again in one loop.
pub(crate) fn meet<H: MatchHost>(
    alloc: Global,
    text: &[u8],
    pattern: Rc<Node>,
    start: usize,
    trail: &mut Trail,
    left: &mut u64,
    host: &mut H,
) -> Result<Turn, AllocError>
    requires ready { H.ready host.old }
    requires short { length text.now ≤ LAST }
    requires cursor { start ≤ length text.now }
    requires all { AllWithin (length text.now) trail.old.opens }
    ensures moved { IfOk result (λ turn. Moved H.tells H.broken text.now host.old trail.old.opens (outcome text.now (Meet (pattern_of pattern.value) ∷ trail.old.goals) start (waiting_of text.now trail.old.waits) left.old) left.old host.new turn trail.new left.new) }
    ensures falls { IfOk result (λ turn. rank turn left.new < 3 * left.old + 1) }
    ensures cut { OnErr result (StopsIn H.tells Fits H.broken (resume text.now trail.old.opens (outcome text.now (Meet (pattern_of pattern.value) ∷ trail.old.goals) start (waiting_of text.now trail.old.waits) left.old)) host.old host.new) }
    ensures ready { H.ready host.new }
{
    let mut node = pattern;
    let mut from = start;
    while let Some((part, at)) = descend(text, &node, from, trail, left)? {
        match part {
            Part::Defer(variable) => match looked(alloc, text, variable, at, trail, left, host)? {
                Turn::Meet(next, place) => {
                    node = next;
                    from = place;
                }
                turn => return Ok(turn),
            },
            Part::Cursor(variable) => {
                return Ok(assign_cursor(text, variable, at, trail, left, host)?);
            }
            Part::Plain(node) => return Ok(plain(text, node, at, trail, left)?),
        }
    }
    Ok(Turn::Stay(Ended::OutOfSteps))
}
