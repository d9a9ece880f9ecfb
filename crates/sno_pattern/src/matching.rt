//! A whole match.
ghost use Rattle.std.specs.Prelude.{◌≡◌, ◌≤◌, ◌+◌, ◌-◌, length, IfOk, OnErr};
ghost use Rattle.mon_text.specs.Lines.{IsLine};
ghost use Rattle.interaction.specs.Holding.{RunsTo, StopsIn};
ghost use Rattle.sno_text.specs.Nodes.{pattern_of};
ghost use Rattle.sno_pattern.specs.Looks.{Fits};
ghost use Rattle.sno_pattern.specs.Steps.{match_of};
ghost use Rattle.sno_pattern.specs.Places.{MatchesWithin};
ghost use Rattle.sno_pattern.specs.inner.Running.{finishing};
ghost use Rattle.sno_pattern.specs.inner.Stack.{waiting_of};

use crate::choice_points::Ended;
use crate::consuming::part_of;
use crate::deterministic::go_straight;
use crate::ending::{Assignments, MatchEnd, Pending};
use crate::host::MatchHost;
use crate::running::run;
use crate::starting::skip_starts;
use crate::trail::{Trail, Waiting, fits};
use sno_text::{Node, Pat, Text};
use std::alloc::{AllocError, Global};
use std::rc::Rc;

/// The assignments that wait, with their texts.
fn assignments_of(alloc: Global, text: &[u8], waits: &[Waiting]) -> Result<Assignments, AllocError>
    requires { IsLine text.now }
    ensures { IfOk result (λ assignments. assignments ≡ waiting_of text.now waits.now) }
{
    let mut list: Vec<Pending> = Vec::new(alloc);
    for waiting in waits {
        let variable = waiting.variable.copy()?;
        let text = part_of(alloc, text, waiting.from, waiting.to)?;
        list.push(Pending { variable, text })?;
    }
    Ok(Assignments::of(list))
}

/// Matches a text from one start after the other.
#[inline(never)]
fn matches_from<H: MatchHost>(
    alloc: Global,
    pattern: &Rc<Node>,
    text: &[u8],
    first: usize,
    starts: usize,
    limit: u64,
    host: &mut H,
) -> Result<MatchEnd, AllocError>
    requires ready { H.ready host.old }
    requires printable { IsLine text.now }
    requires within { starts ≤ length text.now + 1 }
    requires begins { first ≤ starts }
    ensures held { IfOk result (λ end. RunsTo H.tells Fits (finishing text.now (pattern_of pattern.now.value) (starts - first) first limit) host.old end host.new) }
    ensures cut { OnErr result (StopsIn H.tells Fits H.broken (finishing text.now (pattern_of pattern.now.value) (starts - first) first limit) host.old host.new) }
    ensures ready { H.ready host.new }
{
    fits(text)?;
    let node: &Node = pattern;
    let mut trail = Trail::new(alloc);
    let mut left = limit;
    let mut from = first;
    while from < starts {
        let attempt = run(alloc, text, pattern, from, left, &mut trail, host)?;
        match attempt.out {
            Ok(to) => {
                let pending = assignments_of(alloc, text, trail.waits())?;
                return Ok(MatchEnd::Matched { from, to, pending });
            }
            Err(ended) => match ended {
                Ended::Failure => {
                    left = attempt.left;
                    let later = skip_starts(text, node, from + 1, starts, &mut left);
                    from = later;
                }
                Ended::WholeFails => return Ok(MatchEnd::NoMatch),
                Ended::OutOfSteps => return Ok(MatchEnd::Limit),
                Ended::Fault(fault) => return Ok(MatchEnd::Fault(fault)),
            },
        }
    }
    Ok(MatchEnd::NoMatch)
}

/// Matches a text. Where each start is missed at once, no memory is taken; where the first that is not goes straight on, only
/// that of the assignments.
fn matches_in<H: MatchHost>(
    alloc: Global,
    pattern: &Rc<Node>,
    text: &[u8],
    anchored: bool,
    limit: u64,
    host: &mut H,
) -> Result<MatchEnd, AllocError>
    requires ready { H.ready host.old }
    requires printable { IsLine text.now }
    ensures held { IfOk result (λ end. RunsTo H.tells Fits (match_of text.now (pattern_of pattern.now.value) anchored limit) host.old end host.new) }
    ensures cut { OnErr result (StopsIn H.tells Fits H.broken (match_of text.now (pattern_of pattern.now.value) anchored limit) host.old host.new) }
    ensures ready { H.ready host.new }
{
    let starts = if anchored { 1 } else { text.len() + 1 };
    let mut left = limit;
    let node: &Node = pattern;
    let first = skip_starts(text, node, 0, starts, &mut left);
    if first == starts {
        return Ok(MatchEnd::NoMatch);
    }
    match go_straight(alloc, text, node, first, left) {
        Ok(Some(found)) => Ok(MatchEnd::Matched {
            from: first,
            to: found.end,
            pending: Assignments::of(found.pending),
        }),
        Ok(None) => match matches_from(alloc, pattern, text, first, starts, left, host) {
            Ok(end) => Ok(end),
            Err(e) => Err(e),
        },
        Err(e) => Err(e),
    }
}

/// Matches a text, at its start alone or at each place. A limit of as many steps as the match needs is enough.
///
/// # Errors
///
/// Where a growth was refused, or four bytes do not say a cursor of the text or how much is ahead; then the host stands as its calls so far left it.
pub fn matches<H: MatchHost>(
    alloc: Global,
    pattern: &Pat,
    text: &Text,
    anchored: bool,
    limit: u64,
    host: &mut H,
) -> Result<MatchEnd, AllocError>
    requires ready { H.ready host.old }
    ensures held { IfOk result (λ end. RunsTo H.tells Fits (match_of text.now pattern.now anchored limit) host.old end host.new) }
    ensures within { IfOk result (MatchesWithin (length text.now)) }
    ensures cut { OnErr result (StopsIn H.tells Fits H.broken (match_of text.now pattern.now anchored limit) host.old host.new) }
    ensures ready { H.ready host.new }
{
    let node = pattern.node();
    let text = text.as_bytes();
    match matches_in(alloc, node, text, anchored, limit, host) {
        Ok(end) => Ok(end),
        Err(e) => Err(e),
    }
}
