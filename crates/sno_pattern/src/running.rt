//! Goals taken one after the other until they come out.
ghost use Rattle.std.specs.Prelude.{◌≤◌, ◌∷◌, [], length, IfOk, OnErr};
ghost use Rattle.sno_text.specs.Nodes.{pattern_of};
ghost use Rattle.mon_text.specs.Lines.{IsLine};
ghost use Rattle.interaction.specs.Holding.{RunsTo, StopsIn};
ghost use Rattle.sno_pattern.specs.Looks.{Fits};
ghost use Rattle.sno_pattern.specs.Steps.{Meet, outcome};
ghost use Rattle.sno_pattern.specs.inner.Running.{outcome_of};
ghost use Rattle.sno_pattern.specs.declared.trail.TheConstants.{LAST};

use crate::choice_points::{Ended, Turn};
use crate::consuming::take;
use crate::host::MatchHost;
use crate::meeting::meet;
use crate::trail::Trail;
use sno_text::Node;
use std::alloc::{AllocError, Global};
use std::rc::Rc;

/// After so many steps the host is asked whether it is late.
const STEPS_BETWEEN: u64 = 65_536;

/// Where goals come out, or how they end, and the steps that are left.
#[derive(Drop)]
pub(crate) struct Attempt {
    pub(crate) out: Result<usize, Ended>,
    pub(crate) left: u64,
}

/// Takes goals until they come out, from a pattern at a cursor on.
pub(crate) fn run<H: MatchHost>(
    alloc: Global,
    text: &[u8],
    pattern: &Rc<Node>,
    start: usize,
    limit: u64,
    trail: &mut Trail,
    host: &mut H,
) -> Result<Attempt, AllocError>
    requires ready { H.ready host.old }
    requires printable { IsLine text.now }
    requires short { length text.now ≤ LAST }
    requires within { start ≤ length text.now }
    ensures held { IfOk result (λ a. RunsTo H.tells Fits (outcome text.now (Meet (pattern_of pattern.now.value) ∷ []) start [] limit) host.old (outcome_of text.now trail.new.waits a) host.new) }
    ensures cut { OnErr result (StopsIn H.tells Fits H.broken (outcome text.now (Meet (pattern_of pattern.now.value) ∷ []) start [] limit) host.old host.new) }
    ensures ready { H.ready host.new }
{
    trail.clear();
    let mut turn = Turn::Meet(pattern.clone()?, start);
    let mut left = limit;
    let mut passed = left / STEPS_BETWEEN;
    loop {
        if left / STEPS_BETWEEN != passed {
            passed = left / STEPS_BETWEEN;
            if host.is_late() {
                return Err(AllocError);
            }
        }
        match turn {
            Turn::Meet(node, at) => {
                turn = meet(alloc, text, node, at, trail, &mut left, host)?;
            }
            Turn::Go(at) => match trail.next()? {
                None => return Ok(Attempt { out: Ok(at), left }),
                Some(goal) => turn = take(alloc, text, goal, at, trail, &mut left, host)?,
            },
            Turn::Stay(ended) => {
                let out = Err(ended);
                return Ok(Attempt { out, left });
            }
        }
    }
}
