//! Commits that no run reads are put apart.
use ledger_disk::{Disk, Name};
use ledger_folder::{ARCHIVE, Fault, Host, LEDGER, Place, Wrong, joined, seconds_now};
use ledger_opening::{Site, numbers_in};
use ledger_pruning::{first_kept, kept_since, removable, since};
use ledger_run::read_ledger;
use ledger_site::past::said_in;

/// Which of the last commits stay where they are.
#[derive(Clone, Copy)]
pub enum Kept {
    /// So many of them.
    Last(u64),
    /// Those of so many days.
    Days(u64),
}

/// Puts the commits before the last checkpoint into the archive, but for some of the last: how many it put there is told.
///
/// # Errors
///
/// Memory, and what the system refuses; some are archived then, and others not.
pub fn archive<R: Host>(site: &mut Site<R>, kept: Kept) -> Result<Vec<u8>, Fault> {
    let numbers = numbers_in(&site.place, LEDGER)?;
    let keep = match kept {
        Kept::Last(count) => count,
        Kept::Days(days) => last_of(site, &numbers, days)?,
    };
    let first = first_kept(site.ledger.commits, site.checked, keep);
    let old = removable(site.place.alloc(), &numbers, first)?;
    make_archive(&site.place)?;
    for number in old.iter() {
        put_apart(&site.place, *number)?;
    }
    let alloc = site.place.alloc();
    let told = format!(in alloc; "{} commits archived\n", old.len())?;
    Ok(told.into_bytes())
}

// How many of the last commits stay where those of so many days do, if these stand in the ledger. What is behind the checkpoint stays in any
// case, and is not looked at; nor is what follows the first commit of these days.
fn last_of<R: Host>(site: &mut Site<R>, numbers: &[u64], days: u64) -> Result<u64, Fault> {
    let begin = since(seconds_now(&site.place.rt), days);
    let first = first_of(numbers, site.checked);
    let mut times = Vec::new(site.place.alloc());
    for number in first..site.checked {
        let time = time_of(site, number)?;
        times.push(time)?;
        if time >= begin {
            break;
        }
    }
    Ok(kept_since(begin, site.ledger.commits, first, &times))
}

// The least of these numbers, or of this one.
fn first_of(numbers: &[u64], most: u64) -> u64 {
    let mut first = most;
    for number in numbers {
        first = first.min(*number);
    }
    first
}

// When a commit was made. One that was put apart, where archiving was broken off, is read there.
fn time_of<R: Host>(site: &mut Site<R>, number: u64) -> Result<u64, Fault> {
    match site.disk.read(Name::Commit(number))? {
        Some(text) => {
            let said = said_in(site.place.alloc(), &text)?;
            Ok(said.time)
        }
        None => Err(site.place.wrong(ARCHIVE, Wrong::Words("lacks a commit"))),
    }
}

fn make_archive<R: Host>(place: &Place<R>) -> Result<(), Fault> {
    let path = place.path(ARCHIVE)?;
    match place.look(&path)? {
        Some(_) => Ok(()),
        None => place.make_folder(&path, 0o700),
    }
}

fn put_apart<R: Host>(place: &Place<R>, number: u64) -> Result<(), Fault> {
    let alloc = place.alloc();
    let name = format!(in alloc; "{number:08}")?;
    let from = joined(alloc, &place.path(LEDGER)?, &name)?;
    let to = joined(alloc, &place.path(ARCHIVE)?, &name)?;
    place.rename(&from, &to)
}

/// All commits of a site, with those that were archived.
///
/// # Errors
///
/// Where one of these is missing; memory, and what the system refuses.
pub fn whole_ledger<R: Host>(site: &mut Site<R>) -> Result<Vec<Vec<u8>>, Fault> {
    let commits = read_ledger(site.place.alloc(), &mut site.disk, site.ledger.commits)?;
    if commits.len() as u64 == site.ledger.commits {
        Ok(commits)
    } else {
        Err(site.place.wrong(ARCHIVE, Wrong::Words("lacks a commit")))
    }
}
