//! The run of a case.
ghost use Rattle.sno_cards.specs.Limits.{AreLimits};

use crate::running::case::Case;
use crate::running::script::{answers_of, program_of};
use crate::running::seen::{put_end, put_requests};
use anyhow::{Context, Result};
use interaction::Script;
use sno_run::{Ending, Job, Step, statement_turn};
use std::alloc::Global;

/// More turns than a job can have: each but the last begins a statement.
const MOST_TURNS: u64 = 10_000_001;

/// Runs the program of a case on the answers of its service, and tells what is seen.
pub fn seen_of(alloc: Global, case: &Case<'_>) -> Result<Vec<u8>>
    requires { AreLimits case.now.limits }
{
    let program = program_of(alloc, case.program)?;
    let answers = answers_of(alloc, case.answers)?;
    let mut script = Script::new(alloc, answers);
    let mut job = Job::new(alloc, program, case.limits)?;
    let (ending, turns) = run(alloc, &mut job, &mut script).context("it goes on for ever")?;
    let mut out = Vec::new(alloc);
    put_requests(script.asked(), &mut out)?;
    put_end(ending, job.statements(), turns, &mut out)?;
    Ok(out)
}

// How a job ends, and in how many turns.
fn run(alloc: Global, job: &mut Job, script: &mut Script) -> Option<(Ending, u64)> {
    for turns in 1..=MOST_TURNS {
        if let Step::Ended(ending) = statement_turn(alloc, job, script) {
            return Some((ending, turns));
        }
    }
    None
}
