//! What the program tells, and its exit status.
use clap::Error;
use clap::error::ErrorKind;
use ledger_folder::fault::FAILED;
use ledger_folder::{Fault, seconds_now};
use ledger_opening::Progress;
use ledger_service::{Pruned, Report, Sizes, Standing, Verified, Waiting};
use ledger_users::Checked;
use std::time::Clock;
use std::{io, str};

/// The exit status where a submission was refused, and all else was done; or where something else came out.
const REFUSED: u8 = 1;

/// The exit status where the words ask nothing.
const NOTHING_ASKED: u8 = 2;

/// Tells a fault, and gives its exit status.
pub fn tell_fault<R: Eprint>(rt: &R, fault: &Fault) -> u8 {
    let _told = eprintln!(rt; "snomon-site: {fault}");
    fault.status()
}

fn tell_faults<R: Eprint>(rt: &R, faults: &[Fault]) {
    for fault in faults {
        let _status = tell_fault(rt, fault);
    }
}

// The exit status where something was told; 3 where that could not be written.
fn status_of(told: io::Result<()>, status: u8) -> u8 {
    match told {
        Ok(()) => status,
        Err(_) => FAILED,
    }
}

/// Tells what `clap` says of the words, and gives the exit status: help and version, for which they ask, go to standard output
/// with status 0, and what is wrong with them to standard error.
pub fn tell_words<R: Print + Eprint>(rt: &R, error: &Error) -> u8 {
    if error.kind() == ErrorKind::OutOfMemory {
        tell_fault(rt, &Fault::Memory)
    } else if error.use_stderr() {
        let _told = eprint!(rt; "{error}");
        NOTHING_ASKED
    } else {
        status_of(print!(rt; "{error}"), 0)
    }
}

/// Tells how an act ended.
pub fn tell_done<R: Eprint>(rt: &R, done: Result<(), Fault>) -> u8 {
    match done {
        Ok(()) => 0,
        Err(fault) => tell_fault(rt, &fault),
    }
}

/// Tells what a run came to, what was passed over, and the fault that ended it, if one did. What was passed over costs its user, and not
/// the status.
pub fn tell_run<R: Print + Eprint>(rt: &R, report: &Report, ended: Result<(), Fault>) -> u8 {
    let (run, refused) = (report.run, report.refused);
    let told = println!(rt; "{run} run, {refused} refused");
    tell_faults(rt, &report.passed);
    match ended {
        Ok(()) => status_of(told, if refused == 0 { 0 } else { REFUSED }),
        Err(fault) => tell_fault(rt, &fault),
    }
}

/// Tells how many answers were removed, and why others were not.
pub fn tell_pruned<R: Print + Eprint>(rt: &R, pruned: Result<Pruned, Fault>) -> u8 {
    match pruned {
        Ok(pruned) => {
            let removed = pruned.removed;
            let told = println!(rt; "{removed} answers removed");
            tell_faults(rt, &pruned.faults);
            status_of(told, status_with(&pruned.faults))
        }
        Err(fault) => tell_fault(rt, &fault),
    }
}

// The exit status where these were told.
fn status_with(faults: &[Fault]) -> u8 {
    if faults.is_empty() { 0 } else { FAILED }
}

/// Prints a text.
pub fn tell_text<R: Print + Eprint>(rt: &R, text: Result<Vec<u8>, Fault>) -> u8 {
    match text {
        Ok(text) => status_of(print_text(rt, &text), 0),
        Err(fault) => tell_fault(rt, &fault),
    }
}

/// Tells what is told of a submission.
pub fn tell_checked<R: Print + Eprint>(rt: &R, checked: Result<Checked, Fault>) -> u8 {
    match checked {
        Ok(checked) => {
            let status = if checked.is_good { 0 } else { REFUSED };
            status_of(print_text(rt, &checked.told), status)
        }
        Err(fault) => tell_fault(rt, &fault),
    }
}

fn print_text<R: Print>(rt: &R, text: &[u8]) -> io::Result<()> {
    let text = str::from_utf8(text).unwrap_or("");
    print!(rt; "{text}")
}

/// Tells what stands in a site.
pub fn tell_standing<R: Print + Eprint>(rt: &R, standing: Result<Standing, Fault>) -> u8 {
    match standing {
        Ok(standing) => {
            tell_faults(rt, &standing.faults);
            let status = status_with(&standing.faults);
            status_of(print_standing(rt, &standing), status)
        }
        Err(fault) => tell_fault(rt, &fault),
    }
}

/// Tells how far a run is, or only that one is at work.
pub fn tell_at_work<R: Print + Eprint + Clock>(rt: &R, progress: Option<Progress>) -> u8 {
    let told = match progress {
        Some(progress) => print_progress(rt, progress),
        None => println!(rt; "at work: the lock is held"),
    };
    status_of(told, 0)
}

fn print_progress<R: Print + Clock>(rt: &R, progress: Progress) -> io::Result<()> {
    let Progress {
        submission,
        submissions,
        since,
    } = progress;
    let passed = seconds_now(rt).saturating_sub(since);
    let (hours, minutes, seconds) = (since / 3600 % 24, since / 60 % 60, since % 60);
    println!(rt;
        "at work: submission {submission} of {submissions}, since {hours:02}:{minutes:02}:{seconds:02} UTC, for {passed} s"
    )
}

fn print_standing<R: Print>(rt: &R, standing: &Standing) -> io::Result<()> {
    let (commits, next) = (standing.commits, standing.next);
    let (waiting, tied) = (standing.waiting, standing.tied);
    let (owed, left) = (standing.owed, standing.left);
    println!(rt; "commits: {commits}")?;
    println!(rt; "next number: {next}")?;
    println!(rt; "submissions that wait in the ledger: {waiting}")?;
    println!(rt; "submissions that data sets tie together: {tied}")?;
    println!(rt; "answers that are owed: {owed}")?;
    println!(rt; "files left claimed: {left}")?;
    for one in &standing.boxes {
        print_box(rt, one)?;
    }
    match standing.sizes {
        Some(sizes) => print_sizes(rt, sizes),
        None => Ok(()),
    }
}

fn print_sizes<R: Print>(rt: &R, sizes: Sizes) -> io::Result<()> {
    let Sizes {
        commits,
        archived,
        checkpoints,
        answers,
    } = sizes;
    println!(rt; "bytes of commits: {commits}")?;
    println!(rt; "bytes of archived commits: {archived}")?;
    println!(rt; "bytes of checkpoints: {checkpoints}")?;
    println!(rt; "bytes of answers: {answers}")
}

fn print_box<R: Print>(rt: &R, one: &Waiting) -> io::Result<()> {
    let account = str::from_utf8(&one.account).unwrap_or("");
    let files = one.files;
    println!(rt; "in/{account}: {files}")
}

/// Tells what a reading of the whole ledger found.
pub fn tell_verified<R: Print + Eprint>(rt: &R, found: Result<Verified, Fault>) -> u8 {
    match found {
        Ok(Verified::Whole(count)) => status_of(println!(rt; "{count} commits, whole"), 0),
        Ok(Verified::Broken(number)) => status_of(
            eprintln!(rt; "snomon-site: commit {number} does not name the one before it"),
            REFUSED,
        ),
        Ok(Verified::Other(number)) => status_of(
            eprintln!(rt; "snomon-site: commit {number}: the run comes to something else"),
            REFUSED,
        ),
        Err(fault) => tell_fault(rt, &fault),
    }
}
