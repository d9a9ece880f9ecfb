//! A run of a site: the ledger is opened, files are claimed, recorded, run and answered, until nothing waits.

use crate::teller::Teller;
use ledger_disk::{Disk, DiskError, Name};
use ledger_run::{
    Ledger, LedgerError, claim_beside, open_ledger, record_act, remove_claimed, run_and_give,
};
use ledger_text::{Claimed, Entry, Record};
use std::alloc::{AllocError, Global};

/// More files than a run claims, and more batches than it runs.
const MOST: u64 = 64;

/// The time of all records.
const TIME: u64 = 1_791_180_000;

/// A run over a disk in whose boxes files may be dropped at so many places; so many texts are run before they are answered.
///
/// # Errors
///
/// Where the ledger does not open, or the disk failed.
pub fn run<D: Disk>(
    alloc: Global,
    disk: &mut D,
    places: u64,
    batch: usize,
) -> Result<(), LedgerError> {
    let mut machine = Teller::new(alloc);
    let mut drops = all_places(alloc, places)?;
    let mut ledger = open_ledger(alloc, disk, &mut machine, &mut drops)?;
    claim_all(alloc, disk, &machine, &ledger, &drops)?;
    take_all(disk, &mut machine, &mut ledger)?;
    run_all(disk, &mut machine, &mut ledger, batch)
}

fn all_places(alloc: Global, places: u64) -> Result<Vec<u64>, AllocError> {
    let mut all = Vec::new(alloc);
    for place in 0..places {
        all.push(place)?;
    }
    Ok(all)
}

// Claims what is left in the boxes, under numbers that no file has.
fn claim_all<D: Disk>(
    alloc: Global,
    disk: &mut D,
    machine: &Teller,
    ledger: &Ledger,
    drops: &[u64],
) -> Result<(), LedgerError> {
    if drops.is_empty() {
        return Ok(());
    }
    let first = free_number(disk, ledger.next)?;
    if first > u64::MAX / 2 || drops.len() as u64 > u64::MAX / 2 {
        return Err(LedgerError::Refused);
    }
    claim_beside(alloc, disk, machine, ledger, first, drops)?;
    Ok(())
}

// The number behind all that files stand under, and behind those that the ledger has.
fn free_number<D: Disk>(disk: &mut D, next: u64) -> Result<u64, DiskError> {
    let mut free = next;
    for _ in 0..MOST {
        match disk.next_claimed(free)? {
            Some(number) => free = number.saturating_add(1),
            None => return Ok(free),
        }
    }
    Err(DiskError::Failed)
}

// Records what was claimed, and removes what is recorded.
fn take_all<D: Disk>(
    disk: &mut D,
    machine: &mut Teller,
    ledger: &mut Ledger,
) -> Result<(), LedgerError> {
    let mut from = 0;
    for _ in 0..MOST {
        let Some(number) = disk.next_claimed(from)? else {
            return Ok(());
        };
        take(disk, machine, ledger, number)?;
        from = number.saturating_add(1);
    }
    Err(LedgerError::Refused)
}

fn take<D: Disk>(
    disk: &mut D,
    machine: &mut Teller,
    ledger: &mut Ledger,
    number: u64,
) -> Result<(), LedgerError> {
    if ledger.next <= number {
        record(disk, machine, ledger, number)?;
    }
    remove_claimed(disk, machine, ledger, number)
}

fn record<D: Disk>(
    disk: &mut D,
    machine: &mut Teller,
    ledger: &mut Ledger,
    number: u64,
) -> Result<(), LedgerError> {
    let Some(text) = disk.read(Name::Claimed(number))? else {
        return Err(LedgerError::Refused);
    };
    let claimed = Claimed {
        number,
        account: b"lisa",
        uid: 1002,
        name: b"report.job",
    };
    record_act(
        disk,
        machine,
        ledger,
        Entry {
            time: TIME,
            record: Record::Took(claimed, &text),
        },
        &[],
    )
}

// Runs what waits.
fn run_all<D: Disk>(
    disk: &mut D,
    machine: &mut Teller,
    ledger: &mut Ledger,
    batch: usize,
) -> Result<(), LedgerError> {
    for _ in 0..MOST {
        run_and_give(disk, machine, ledger, batch, TIME)?;
        if ledger.waiting.is_empty() {
            return Ok(());
        }
    }
    Err(LedgerError::Refused)
}
