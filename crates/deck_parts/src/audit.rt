//! What a part's audit says, cut into what it says of each text.

use crate::output::{Due, Misfit, Taking, dues, job_on, put_job};
use crate::pieces::first_piece;
use crate::record::Record;
use indexmap::IndexMap;
use mon_text::Stop;
use parts::Part;
use std::alloc::{AllocError, Global};

/// The last line of an audit.
pub(crate) const STOPPED: &[u8] = b"RUN 0 .NONE STOPPED\n";

/// What the part of this number gave, by its audit: of each text what is told of it, and no data sets.
///
/// # Errors
///
/// The first line that the part does not tell there; `Memory` where a growth was refused.
pub fn take_audit(
    alloc: Global,
    record: &Record,
    part: u64,
    audit: &[u8],
) -> Result<Part, Stop<Misfit>> {
    let mut taking = Taking::new(alloc, dues(alloc, record, part)?);
    let mut number: u64 = 1;
    let mut rest = audit;
    'lines: while !rest.is_empty() && rest != STOPPED {
        let (line, behind) = first_piece(rest);
        rest = behind;
        if !take_line(alloc, &mut taking, line)? {
            return Err(Stop::Refused(Misfit { line: number }));
        }
        number = number.saturating_add(1);
    }
    if rest.is_empty() {
        return Err(Stop::Refused(Misfit { line: number }));
    }
    if finish(alloc, &mut taking)? {
        Ok(Part {
            printed: taking.printed,
            left: IndexMap::new(alloc),
        })
    } else {
        Err(Stop::Refused(Misfit { line: number }))
    }
}

// Each text has what was taken for it: whether that is all.
fn finish(alloc: Global, taking: &mut Taking) -> Result<bool, AllocError> {
    for _ in 0..taking.dues.len() {
        let Some(due) = taking.due() else {
            break;
        };
        if !go_on(alloc, taking, due)? {
            return Ok(false);
        }
    }
    Ok(true)
}

// Takes a line of an audit: whether it is of a text of the part.
fn take_line(alloc: Global, taking: &mut Taking, line: &[u8]) -> Result<bool, AllocError> {
    match line.strip_prefix(b"JOB ".as_slice()) {
        Some(rest) => match job_on(rest) {
            Some((job, _)) => take_job(alloc, taking, job, rest),
            None => Ok(false),
        },
        None => take_command(alloc, taking, line),
    }
}

fn take_job(alloc: Global, taking: &mut Taking, job: u64, rest: &[u8]) -> Result<bool, AllocError> {
    for _ in 0..taking.dues.len() {
        match taking.due() {
            Some(due) if due.last_job() < job => {
                if !go_on(alloc, taking, due)? {
                    return Ok(false);
                }
            }
            _ => break,
        }
    }
    taking.last = taking.last.max(job);
    match taking.due() {
        Some(due) => put_job(&mut taking.current, due, rest),
        None => Ok(false),
    }
}

// A line of a command: one that shows a data set belongs to the command before it.
fn take_command(alloc: Global, taking: &mut Taking, line: &[u8]) -> Result<bool, AllocError> {
    if !line.starts_with(b"COMMAND ") {
        return Ok(false);
    }
    for _ in 0..taking.dues.len() {
        match taking.due() {
            Some(due) if due.commands <= taking.taken => {
                if !go_on(alloc, taking, due)? {
                    return Ok(false);
                }
            }
            _ => break,
        }
    }
    taking.taken = taking.taken.saturating_add(1);
    taking.current.extend_from_slice(line)?;
    Ok(taking.due().is_some())
}

// The next text is at hand: whether all commands and jobs of the one before were told of.
fn go_on(alloc: Global, taking: &mut Taking, due: Due) -> Result<bool, AllocError> {
    let whole = taking.taken >= due.commands && taking.last >= due.last_job();
    taking.taken = 0;
    taking.step(alloc, due.number)?;
    Ok(whole)
}
