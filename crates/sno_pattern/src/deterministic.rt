//! Matches that go straight on: where each part of a pattern ends in one place, no goal and no choice is kept in memory.
ghost use Rattle.std.specs.Prelude.{◌≡◌, ◌≤◌, ◌<◌, [], ◌∷◌, ◌++◌, List, length, IfOk, IfSome};
ghost use Rattle.mon_text.specs.Lines.{IsLine};
ghost use Rattle.sno_text.specs.Nodes.{pattern_of};
ghost use Rattle.sno_text.specs.Balance.{part};
ghost use Rattle.sno_pattern.specs.Steps.{Goal as Aim, Meet, Success, ends, outcome};

use crate::consuming::part_of;
use crate::ending::Pending;
use sno_text::reach::{Reach, reached};
use sno_text::{Node, Text};
use std::alloc::{AllocError, Global};

/// Where a part of a pattern ends, and the steps that are left.
#[derive(Clone, Copy)]
struct Passed {
    end: usize,
    left: u64,
}

/// Where a whole pattern ends, with the steps that are left and the assignments that wait.
#[derive(Drop)]
pub(crate) struct Straight {
    pub(crate) end: usize,
    pub(crate) left: u64,
    pub(crate) pending: Vec<Pending>,
}

/// Puts the text between two cursors by, to be assigned at the end.
fn put_by(
    alloc: Global,
    text: &[u8],
    variable: &Text,
    from: usize,
    to: usize,
    pending: &mut Vec<Pending>,
) -> Result<(), AllocError>
    requires { IsLine text.now }
    ensures { IfOk result (λ u. pending.new.items ≡ pending.old.items ++ record { variable = variable.now; text = part text.now from to } ∷ []) }
{
    let variable = variable.copy()?;
    let text = part_of(alloc, text, from, to)?;
    Ok(pending.push(Pending { variable, text })?)
}

/// Passes a part that ends in one place, or one of which that is to be assigned at the end.
fn pass(
    alloc: Global,
    text: &[u8],
    node: &Node,
    at: usize,
    limit: u64,
    pending: &mut Vec<Pending>,
) -> Result<Option<Passed>, AllocError>
    requires printable { IsLine text.now }
    requires cursor { at ≤ length text.now }
    ensures same { IfOk result (λ found. IfSome found (λ p. (r : List Aim) → outcome text.now (Meet (pattern_of node.now) ∷ r) at pending.old.items limit ≡ outcome text.now r p.end pending.new.items p.left)) }
    ensures within { IfOk result (λ found. IfSome found (λ p. p.end ≤ length text.now)) }
    ensures fewer { IfOk result (λ found. IfSome found (λ p. p.left < limit)) }
{
    match node {
        Node::Conditional(_, inner, variable) => match reached(text, inner, at) {
            Reach::Here(end) if limit > 2 => {
                put_by(alloc, text, variable, at, end, pending)?;
                let left = limit - 3;
                Ok(Some(Passed { end, left }))
            }
            _ => Ok(None),
        },
        _ => match reached(text, node, at) {
            Reach::Here(end) if limit > 0 => {
                let left = limit - 1;
                Ok(Some(Passed { end, left }))
            }
            _ => Ok(None),
        },
    }
}

/// Where a pattern ends from a cursor on, if each of its parts ends in one place.
pub(crate) fn go_straight(
    alloc: Global,
    text: &[u8],
    pattern: &Node,
    from: usize,
    limit: u64,
) -> Result<Option<Straight>, AllocError>
    requires printable { IsLine text.now }
    requires cursor { from ≤ length text.now }
    ensures { IfOk result (λ found. IfSome found (λ s. outcome text.now (Meet (pattern_of pattern.now) ∷ []) from [] limit ≡ ends (Success s.end s.pending.items) s.left)) }
{
    let mut pending: Vec<Pending> = Vec::new(alloc);
    let mut node = pattern;
    let mut at = from;
    let mut left = limit;
    while let Node::Cat(_, first, second) = node {
        if left == 0 {
            return Ok(None);
        }
        match pass(alloc, text, first, at, left - 1, &mut pending)? {
            Some(passed) => {
                at = passed.end;
                left = passed.left;
                node = second;
            }
            None => return Ok(None),
        }
    }
    match pass(alloc, text, node, at, left, &mut pending)? {
        Some(Passed { end, left }) => Ok(Some(Straight { end, left, pending })),
        None => Ok(None),
    }
}
