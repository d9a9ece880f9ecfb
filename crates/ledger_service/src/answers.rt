//! `prune`, and what a run does where the limits have `days`: answers that were given are removed where their files are older.
use crate::folders::{WRITERS, wrong_in};
use ledger_folder::{Fault, Host, joined, seconds_now};
use ledger_opening::Site;
use ledger_pruning::{Answer, answer_of, is_outdated, since};
use std::alloc::AllocError;
use std::fs::Metadata;
use std::os::unix::fs::MetadataExt;

/// What became of old answers.
#[derive(Drop)]
pub struct Pruned {
    /// How many were removed.
    pub removed: u64,
    /// Why others were not.
    pub faults: Vec<Fault>,
}

// Which answers stay.
#[derive(Drop)]
struct Bound {
    // Those whose files are not older than this,
    since: u64,
    // those whose submissions wait, and those that are owed.
    pending: Vec<u64>,
}

/// Removes the answers that are older than so many days, by the times of their files: those that were given, of each account that ever was.
/// A folder that others than the operator may write to is passed over.
///
/// # Errors
///
/// Memory, and where the system does not list the folders. What it refuses of one of them, or of one answer, is told, and the others are
/// removed.
pub fn prune<R: Host>(site: &Site<R>, days: u64) -> Result<Pruned, Fault> {
    let alloc = site.place.alloc();
    let mut pruned = Pruned {
        removed: 0,
        faults: Vec::new(alloc),
    };
    let bound = Bound {
        since: since(seconds_now(&site.place.rt), days),
        pending: pending(site)?,
    };
    let outs = site.place.path("out")?;
    for name in site.place.names(&outs)? {
        let folder = joined(alloc, &outs, &name)?;
        match prune_folder(site, &bound, &folder, &mut pruned) {
            Ok(()) => {}
            Err(fault) => note(fault, &mut pruned)?,
        }
    }
    Ok(pruned)
}

// The numbers of the submissions that wait, and of those whose answers are owed.
fn pending<R: Host>(site: &Site<R>) -> Result<Vec<u64>, AllocError> {
    let mut numbers = Vec::new(site.place.alloc());
    for waiting in site.ledger.waiting.iter() {
        numbers.push(waiting.number)?;
    }
    for owed in site.ledger.owed.iter() {
        numbers.push(owed.number)?;
    }
    Ok(numbers)
}

fn prune_folder<R: Host>(
    site: &Site<R>,
    bound: &Bound,
    folder: &str,
    pruned: &mut Pruned,
) -> Result<(), Fault> {
    if !is_own(site, folder)? {
        return Ok(());
    }
    for name in site.place.names(folder)? {
        let path = joined(site.place.alloc(), folder, &name)?;
        match prune_one(site, bound, &path, &name) {
            Ok(false) => {}
            Ok(true) => pruned.removed = pruned.removed.saturating_add(1),
            Err(fault) => note(fault, pruned)?,
        }
    }
    Ok(())
}

// What the system refuses is told; want of memory ends it.
fn note(fault: Fault, pruned: &mut Pruned) -> Result<(), Fault> {
    match fault {
        Fault::Memory => Err(Fault::Memory),
        fault => Ok(pruned.faults.push(fault)?),
    }
}

// Whether a folder is the operator's, and others may not write to it.
fn is_own<R: Host>(site: &Site<R>, folder: &str) -> Result<bool, Fault> {
    match site.place.look(folder)? {
        Some(seen) => Ok(wrong_in(&seen, site.runner, WRITERS).is_none()),
        None => Ok(false),
    }
}

// Removes a file, if it is an answer that does not stay: whether it was.
fn prune_one<R: Host>(
    site: &Site<R>,
    bound: &Bound,
    path: &str,
    name: &str,
) -> Result<bool, Fault> {
    let Some(number) = answer_of(name.as_bytes()) else {
        return Ok(false);
    };
    match site.place.look(path)? {
        Some(seen) if seen.is_file() => {
            let time = time_of(&seen);
            let answer = Answer { number, time };
            if !is_outdated(bound.since, site.ledger.next, &bound.pending, answer) {
                return Ok(false);
            }
            site.place.remove(path)?;
            Ok(true)
        }
        _ => Ok(false),
    }
}

// When a file was written; one from before 1970 is as old as it can be.
fn time_of(seen: &Metadata) -> u64 {
    match u64::try_from(seen.mtime()) {
        Ok(time) => time,
        Err(_) => 0,
    }
}
