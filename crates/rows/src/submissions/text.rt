//! Whether a text is admitted, and what it asks for.

use crate::submissions::block::text_of;
use anyhow::{Context, Result};
use mon_text::{Stop, read_name};
use preflight::{Refusal, Submission, examine};
use std::alloc::{AllocError, Global};

/// The tally of an account's text, or where and why it is refused.
pub fn seen_of(alloc: Global, own: &str, given: &str) -> Result<Vec<u8>> {
    let said = match examined(alloc, own, given)? {
        Ok(submission) => {
            let tally = submission.tally;
            format!(in alloc;
                "ADMITTED jobs={} statements={} largest={} work={} creates={} bytes={}\n",
                tally.jobs, tally.statements, tally.largest, tally.work, tally.creates, tally.bytes
            )?
        }
        Err(refusal) => format!(in alloc; "REFUSED {} {}\n", refusal.line, refusal.why.text())?,
    };
    Ok(said.into_bytes())
}

/// What the examination of an account's text comes to. Want of memory settles nothing.
pub fn examined(alloc: Global, own: &str, given: &str) -> Result<Result<Submission, Refusal>> {
    let own = read_name(own.as_bytes()).ok().context("it has no account")?;
    let text = text_of(alloc, given)?;
    match examine(alloc, &own, &text) {
        Ok(submission) => Ok(Ok(submission)),
        Err(Stop::Refused(refusal)) => Ok(Err(refusal)),
        Err(Stop::Memory) => Err(AllocError.into()),
    }
}
