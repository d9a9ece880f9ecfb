//! The submissions that wait are run and answered. One that the machine breaks off is tried once more, by itself, and then refused.
use crate::running::Report;
use ledger_disk::DiskError;
use ledger_folder::{Fault, Host, seconds_now};
use ledger_opening::Site;
use ledger_run::{Attempt, Dropping, LedgerError, drop_first, give, try_first};
use ledger_site::{Came, try_some};
use mon_text::put_number;
use std::alloc::AllocError;

/// So many submissions are run before they are answered.
const BATCH: usize = 16;

// Why a submission is refused that was to run.
#[derive(Clone, Copy)]
enum Why {
    // It ran too long.
    Late,
    // It printed too much.
    Long,
    // Memory did not suffice for it.
    Memory,
    // Its account may not hand it in any more.
    Refused,
    // The program ended while it ran, more than once.
    Ended,
    // What it leaves finds no room on the disk.
    Full,
}

/// Runs and answers what waits. A terminal is told which submission is at work, or none.
pub fn serve<R: Host>(site: &mut Site<R>, report: &mut Report, tells: bool) -> Result<(), Fault> {
    pass_over_ended(site, report)?;
    let waiting = site.ledger.waiting.len();
    site.machine.watch.expect(waiting as u64, tells);
    for _ in 0..=waiting {
        match run_some(site, report)? {
            Came::Over => return Ok(()),
            Came::On => {}
            Came::Broken(why) => once_more(site, report, why)?,
        }
    }
    Ok(())
}

// A submission during which the program ended is tried once more, and refused where it did so again.
fn pass_over_ended<R: Host>(site: &mut Site<R>, report: &mut Report) -> Result<(), Fault> {
    let times = site.ended;
    site.ended = 0;
    if times > 1 {
        site.machine.watch.forget();
        return refuse(site, report, Why::Ended);
    }
    site.machine.watch.times = times.saturating_add(1);
    Ok(())
}

/// What the submission of this number leaves found no room on the disk: it is refused, if it waits still. Behind a run that ended so the
/// site has to be opened anew before this.
///
/// # Errors
///
/// Where there is no room for that either; what the system refuses.
pub fn refuse_full<R: Host>(
    site: &mut Site<R>,
    report: &mut Report,
    number: u64,
) -> Result<(), Fault> {
    match site.ledger.waiting.front() {
        Some(first) if first.number == number => refuse(site, report, Why::Full),
        _ => Ok(()),
    }
}

// Runs some of those that wait, and puts the answers that are owed.
fn run_some<R: Host>(site: &mut Site<R>, report: &mut Report) -> Result<Came, Fault> {
    let before = site.ledger.waiting.len();
    let time = seconds_now(&site.place.rt);
    site.machine.watch.prepare(site.ledger.commits, before);
    let came = try_some(
        &mut site.disk,
        &mut site.machine,
        &mut site.ledger,
        BATCH,
        time,
    );
    site.machine.watch.forget();
    let run = before.saturating_sub(site.ledger.waiting.len());
    report.run = report.run.saturating_add(run as u64);
    let came = noting_full(site, report, came)?;
    give(&mut site.disk, &mut site.machine, &mut site.ledger, time)?;
    Ok(came)
}

// The first that waits was broken off. What others than itself may have caused is tried once more, behind the answers of those before.
fn once_more<R: Host>(
    site: &mut Site<R>,
    report: &mut Report,
    why: LedgerError,
) -> Result<(), Fault> {
    match why {
        LedgerError::Late | LedgerError::Disk(DiskError::Memory) => run_alone(site, report),
        _ => refuse_broken(site, report, why),
    }
}

fn noting_full<R: Host, T: Drop>(
    site: &Site<R>,
    report: &mut Report,
    came: Result<T, LedgerError>,
) -> Result<T, Fault> {
    if let Err(LedgerError::Disk(DiskError::Full)) = &came {
        report.full = number_of_first(site);
    }
    Ok(came?)
}

fn number_of_first<R: Host>(site: &Site<R>) -> Option<u64> {
    match site.ledger.waiting.front() {
        Some(first) => Some(first.number),
        None => None,
    }
}

fn run_alone<R: Host>(site: &mut Site<R>, report: &mut Report) -> Result<(), Fault> {
    let time = seconds_now(&site.place.rt);
    let waiting = site.ledger.waiting.len();
    site.machine.watch.prepare(site.ledger.commits, waiting);
    let came = try_first(&mut site.disk, &mut site.machine, &mut site.ledger, time);
    site.machine.watch.forget();
    match noting_full(site, report, came)? {
        Attempt::BrokenOff(why) => refuse_broken(site, report, why),
        Attempt::Ran => {
            report.run = report.run.saturating_add(1);
            Ok(())
        }
        Attempt::NoneWaits => Ok(()),
    }
}

fn refuse_broken<R: Host>(
    site: &mut Site<R>,
    report: &mut Report,
    why: LedgerError,
) -> Result<(), Fault> {
    match why {
        LedgerError::Late => refuse(site, report, Why::Late),
        LedgerError::Long => refuse(site, report, Why::Long),
        LedgerError::Refused => refuse(site, report, Why::Refused),
        LedgerError::Disk(DiskError::Memory) => refuse(site, report, Why::Memory),
        LedgerError::Disk(error) => Err(Fault::from(error)),
    }
}

// The first that waits does not run, and its user is told why.
fn refuse<R: Host>(site: &mut Site<R>, report: &mut Report, why: Why) -> Result<(), Fault> {
    let reply = reply_of(site, why)?;
    let dropping = Dropping {
        time: seconds_now(&site.place.rt),
        reason: word_of(why),
        reply: &reply,
    };
    let _dropped = drop_first(
        &mut site.disk,
        &mut site.machine,
        &mut site.ledger,
        dropping,
    )?;
    report.refused = report.refused.saturating_add(1);
    Ok(())
}

// In a word, for the history.
fn word_of(why: Why) -> &'static [u8] {
    match why {
        Why::Late => b"LATE",
        Why::Long => b"LONG",
        Why::Memory => b"MEMORY",
        Why::Refused => b"REFUSED",
        Why::Ended => b"ENDED",
        Why::Full => b"FULL",
    }
}

fn reply_of<R: Host>(site: &Site<R>, why: Why) -> Result<Vec<u8>, AllocError> {
    let mut reply = Vec::from_slice(site.place.alloc(), b"REFUSED ")?;
    if let Some(first) = site.ledger.waiting.front() {
        reply.extend_from_slice(&first.sender.name)?;
    }
    reply.extend_from_slice(b"\n")?;
    let limits = &site.tables.limits;
    match why {
        Why::Late => put_limit(b"LIMIT seconds: more than ", limits.seconds, &mut reply)?,
        Why::Long => put_limit(b"LIMIT output: more than ", limits.output, &mut reply)?,
        Why::Memory => reply.extend_from_slice(b"OUT OF MEMORY\n")?,
        Why::Refused => reply.extend_from_slice(b"NOT ALLOWED ANY MORE\n")?,
        Why::Ended => reply.extend_from_slice(b"THE PROGRAM ENDED TWICE WHILE IT RAN\n")?,
        Why::Full => reply.extend_from_slice(b"NO ROOM ON THE DISK\n")?,
    }
    Ok(reply)
}

fn put_limit(words: &[u8], limit: u64, reply: &mut Vec<u8>) -> Result<(), AllocError> {
    reply.extend_from_slice(words)?;
    put_number(limit, reply)?;
    reply.extend_from_slice(b"\n")
}
