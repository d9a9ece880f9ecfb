//! Goals taken off, one a step, with what they ask of the host.
ghost use Rattle.std.specs.Prelude.{◌≡◌, ◌<◌, ◌≤◌, ◌+◌, ◌*◌, ◌∷◌, length, IfOk, OnErr};
ghost use Rattle.mon_text.specs.Lines.{IsLine};
ghost use Rattle.interaction.specs.Holding.{StopsIn};
ghost use Rattle.sno_text.specs.Nodes.{pattern_of};
ghost use Rattle.sno_text.specs.Balance.{part};
ghost use Rattle.sno_pattern.specs.Looks.{Fits};
ghost use Rattle.sno_pattern.specs.Steps.{More, EndConditional, EndImmediate, pattern_found, outcome};
ghost use Rattle.sno_pattern.specs.inner.Stack.{goal_of, variable_in, waiting_of, AllWithin, Led, Moved, resume, rank, assigning, looking};
ghost use Rattle.sno_pattern.specs.declared.trail.TheConstants.{LAST};

use crate::choice_points::{Ended, Turn, back};
use crate::host::{Looked, MatchHost, Stop, Taken};
use crate::steps::one_more;
use crate::trail::{Goal, Role, Trail, Waiting};
use sno_text::{Named, Node, Text};
use std::alloc::{AllocError, Global};
use std::rc::Rc;

/// The text between two cursors.
#[tactic(auto, using(sno_text::proofs::Printable::line_of_take, sno_text::proofs::Printable::line_of_drop))]
pub(crate) fn part_of(
    alloc: Global,
    text: &[u8],
    from: usize,
    to: usize,
) -> Result<Text, AllocError>
    requires { IsLine text.now }
    ensures { IfOk result (λ t. t ≡ part text.now from to) }
{
    let last = if to <= text.len() { to } else { text.len() };
    if from <= last {
        Text::of_slice(alloc, &text[from..last])
    } else {
        Ok(Text::null())
    }
}

/// The pattern that a variable stands for.
fn node_found(alloc: Global, looked: Looked) -> Result<Rc<Node>, AllocError>
    ensures { IfOk result (λ node. pattern_of node.value ≡ pattern_found looked) }
{
    match looked {
        Looked::Pattern(pattern) => Ok(pattern.into_node()),
        Looked::Text(text) => Ok(Rc::new(alloc, Node::Text(text))?),
        Looked::Defer(variable) => Ok(Rc::new(alloc, Node::Defer(Named::new(variable, 0)))?),
    }
}

/// Asks for an assignment, and goes on once it is made.
#[inline(never)]
pub(crate) fn assigned<H: MatchHost>(
    text: &[u8],
    variable: &Text,
    taken: Taken,
    at: usize,
    trail: &mut Trail,
    left: &mut u64,
    host: &mut H,
) -> Result<Turn, AllocError>
    requires ready { H.ready host.old }
    requires short { length text.now ≤ LAST }
    requires cursor { at ≤ length text.now }
    requires all { AllWithin (length text.now) trail.old.opens }
    ensures moved { IfOk result (λ turn. Moved H.tells H.broken text.now host.old trail.old.opens (assigning text.now variable.now taken trail.old.goals at (waiting_of text.now trail.old.waits) left.old) left.old host.new turn trail.new left.new) }
    ensures cut { OnErr result (StopsIn H.tells Fits H.broken (resume text.now trail.old.opens (assigning text.now variable.now taken trail.old.goals at (waiting_of text.now trail.old.waits) left.old)) host.old host.new) }
    ensures ready { H.ready host.new }
{
    match host.assign(variable, taken) {
        Ok(()) => Ok(Turn::Go(at)),
        Err(Stop::Fail) => Ok(back(text, trail, left)?),
        Err(Stop::Fault(fault)) => Ok(Turn::Stay(Ended::Fault(fault))),
        Err(Stop::Memory) => Err(AllocError),
    }
}

/// Asks what a variable stands for, and goes on with that.
pub(crate) fn looked<H: MatchHost>(
    alloc: Global,
    text: &[u8],
    variable: &Named,
    at: usize,
    trail: &mut Trail,
    left: &mut u64,
    host: &mut H,
) -> Result<Turn, AllocError>
    requires ready { H.ready host.old }
    requires short { length text.now ≤ LAST }
    requires cursor { at ≤ length text.now }
    requires all { AllWithin (length text.now) trail.old.opens }
    ensures moved { IfOk result (λ turn. Moved H.tells H.broken text.now host.old trail.old.opens (looking text.now variable.now trail.old.goals at (waiting_of text.now trail.old.waits) left.old) left.old host.new turn trail.new left.new) }
    ensures cut { OnErr result (StopsIn H.tells Fits H.broken (resume text.now trail.old.opens (looking text.now variable.now trail.old.goals at (waiting_of text.now trail.old.waits) left.old)) host.old host.new) }
    ensures ready { H.ready host.new }
{
    match host.look_up(variable) {
        Ok(found) => {
            let node = node_found(alloc, found)?;
            Ok(Turn::Meet(node, at))
        }
        Err(Stop::Fail) => Ok(back(text, trail, left)?),
        Err(Stop::Fault(fault)) => Ok(Turn::Stay(Ended::Fault(fault))),
        Err(Stop::Memory) => Err(AllocError),
    }
}

/// Another turn of ARBNO, if the last one moved on.
fn more(
    text: &[u8],
    pattern: &Rc<Node>,
    from: u32,
    at: usize,
    trail: &mut Trail,
    left: &mut u64,
) -> Result<Turn, AllocError>
    requires short { length text.now ≤ LAST }
    requires cursor { at ≤ length text.now }
    requires all { AllWithin (length text.now) trail.old.opens }
    ensures led { IfOk result (λ turn. Led text.now trail.old.opens (outcome text.now (More (pattern_of pattern.now.value) from ∷ trail.old.goals) at (waiting_of text.now trail.old.waits) left.old) left.old turn trail.new left.new) }
    ensures falls { IfOk result (λ turn. rank turn left.new < 3 * left.old + 1) }
{
    if *left == 0 {
        return Ok(Turn::Stay(Ended::OutOfSteps));
    }
    *left -= 1;
    if at == from as usize {
        back(text, trail, left)
    } else {
        one_more(text, pattern, at, trail, *left)
    }
}

/// The variable to which what a pattern matches is assigned.
fn variable_in(node: &Node) -> Result<Text, AllocError>
    ensures { IfOk result (λ variable. variable ≡ variable_in (pattern_of node.now)) }
{
    match node {
        Node::Conditional(_, _, variable) => variable.copy(),
        Node::Immediate(_, _, variable) => variable.copy(),
        _ => Ok(Text::null()),
    }
}

/// From now on what a pattern matched waits to be assigned.
fn put_by(
    text: &[u8],
    node: &Node,
    from: u32,
    at: usize,
    trail: &mut Trail,
    left: &mut u64,
) -> Result<Turn, AllocError>
    requires short { length text.now ≤ LAST }
    requires cursor { at ≤ length text.now }
    requires all { AllWithin (length text.now) trail.old.opens }
    ensures led { IfOk result (λ turn. Led text.now trail.old.opens (outcome text.now (EndConditional (variable_in (pattern_of node.now)) from ∷ trail.old.goals) at (waiting_of text.now trail.old.waits) left.old) left.old turn trail.new left.new) }
    ensures falls { IfOk result (λ turn. rank turn left.new < 3 * left.old + 1) }
{
    if *left == 0 {
        return Ok(Turn::Stay(Ended::OutOfSteps));
    }
    *left -= 1;
    let variable = variable_in(node)?;
    trail.wait(Waiting {
        variable,
        from: from as usize,
        to: at,
    })?;
    Ok(Turn::Go(at))
}

/// Asks for the assignment of what a pattern matched.
#[inline(never)]
fn assign_part<H: MatchHost>(
    alloc: Global,
    text: &[u8],
    node: &Node,
    from: u32,
    at: usize,
    trail: &mut Trail,
    left: &mut u64,
    host: &mut H,
) -> Result<Turn, AllocError>
    requires ready { H.ready host.old }
    requires printable { IsLine text.now }
    requires short { length text.now ≤ LAST }
    requires cursor { at ≤ length text.now }
    requires all { AllWithin (length text.now) trail.old.opens }
    ensures moved { IfOk result (λ turn. Moved H.tells H.broken text.now host.old trail.old.opens (outcome text.now (EndImmediate (variable_in (pattern_of node.now)) from ∷ trail.old.goals) at (waiting_of text.now trail.old.waits) left.old) left.old host.new turn trail.new left.new) }
    ensures falls { IfOk result (λ turn. rank turn left.new < 3 * left.old + 1) }
    ensures cut { OnErr result (StopsIn H.tells Fits H.broken (resume text.now trail.old.opens (outcome text.now (EndImmediate (variable_in (pattern_of node.now)) from ∷ trail.old.goals) at (waiting_of text.now trail.old.waits) left.old)) host.old host.new) }
    ensures ready { H.ready host.new }
{
    if *left == 0 {
        return Ok(Turn::Stay(Ended::OutOfSteps));
    }
    *left -= 1;
    let variable = variable_in(node)?;
    let taken = Taken::Part(part_of(alloc, text, from as usize, at)?);
    match assigned(text, &variable, taken, at, trail, left, host) {
        Ok(turn) => Ok(turn),
        Err(e) => Err(e),
    }
}

/// Meets a goal that was taken off; a pattern is handed on.
pub(crate) fn take<H: MatchHost>(
    alloc: Global,
    text: &[u8],
    goal: Goal,
    at: usize,
    trail: &mut Trail,
    left: &mut u64,
    host: &mut H,
) -> Result<Turn, AllocError>
    requires ready { H.ready host.old }
    requires printable { IsLine text.now }
    requires short { length text.now ≤ LAST }
    requires cursor { at ≤ length text.now }
    requires all { AllWithin (length text.now) trail.old.opens }
    ensures moved { IfOk result (λ turn. Moved H.tells H.broken text.now host.old trail.old.opens (outcome text.now (goal_of goal ∷ trail.old.goals) at (waiting_of text.now trail.old.waits) left.old) left.old host.new turn trail.new left.new) }
    ensures falls { IfOk result (λ turn. rank turn left.new < 3 * left.old + 2) }
    ensures cut { OnErr result (StopsIn H.tells Fits H.broken (resume text.now trail.old.opens (outcome text.now (goal_of goal ∷ trail.old.goals) at (waiting_of text.now trail.old.waits) left.old)) host.old host.new) }
    ensures ready { H.ready host.new }
{
    match goal.role {
        Role::Meet => Ok(Turn::Meet(goal.node, at)),
        Role::More(from) => match more(text, &goal.node, from, at, trail, left) {
            Ok(turn) => Ok(turn),
            Err(e) => Err(e),
        },
        Role::EndConditional(from) => match put_by(text, &goal.node, from, at, trail, left) {
            Ok(turn) => Ok(turn),
            Err(e) => Err(e),
        },
        Role::EndImmediate(from) => {
            match assign_part(alloc, text, &goal.node, from, at, trail, left, host) {
                Ok(turn) => Ok(turn),
                Err(e) => Err(e),
            }
        }
    }
}
