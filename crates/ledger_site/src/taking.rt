//! Claimed files are taken up: each is decided on, recorded and removed.
ghost use Rattle.std.specs.Prelude.{OnOk};
ghost use Rattle.ledger_run.specs.Runs.{seen_ledger, SafeFrom, CarriesOn};

use ledger_boxes::{Boxes, Due, Owner, take_up};
use ledger_disk::Disk;
use ledger_run::{Ledger, LedgerError, Machine, remove_claimed};
use std::alloc::Global;

/// A file that was claimed.
#[derive(Drop)]
pub struct Held {
    /// Its number.
    pub number: u64,
    /// The place of its user among the owners.
    pub place: usize,
    /// The name that it had in its box, as it is shown.
    pub name: Vec<u8>,
}

// Decides on a file and records that, unless it is recorded.
fn record_one<D: Disk, M: Machine, B: Boxes>(
    alloc: Global,
    disk: &mut D,
    machine: &mut M,
    ledger: &mut Ledger,
    boxes: &mut B,
    owner: &mut Owner,
    due: Due<'_>,
) -> Result<(), LedgerError>
    ensures any_moment { SafeFrom D.calls M.step (seen_ledger ledger.old) (M.behind machine.old) disk.old disk.new }
    ensures done { OnOk result (CarriesOn D.calls M.step (seen_ledger ledger.old) (M.behind machine.old)
        (seen_ledger ledger.new) (M.behind machine.new) disk.old disk.new) }
{
    if due.number < ledger.next {
        return Ok(());
    }
    take_up(alloc, disk, machine, ledger, boxes, owner, due)
}

// Decides on a file, records that, and removes the file.
fn take_one<D: Disk, M: Machine, B: Boxes>(
    alloc: Global,
    disk: &mut D,
    machine: &mut M,
    ledger: &mut Ledger,
    boxes: &mut B,
    owner: &mut Owner,
    due: Due<'_>,
) -> Result<(), LedgerError>
    ensures any_moment { SafeFrom D.calls M.step (seen_ledger ledger.old) (M.behind machine.old) disk.old disk.new }
    ensures done { OnOk result (CarriesOn D.calls M.step (seen_ledger ledger.old) (M.behind machine.old)
        (seen_ledger ledger.new) (M.behind machine.new) disk.old disk.new) }
{
    record_one(alloc, disk, machine, ledger, boxes, owner, due)?;
    remove_claimed(disk, machine, ledger, due.number)?;
    Ok(())
}

// The same by the place of its user.
fn take_held<D: Disk, M: Machine, B: Boxes>(
    alloc: Global,
    disk: &mut D,
    machine: &mut M,
    ledger: &mut Ledger,
    boxes: &mut B,
    owners: &mut Vec<Owner>,
    held: &Held,
    time: u64,
) -> Result<(), LedgerError>
    ensures any_moment { SafeFrom D.calls M.step (seen_ledger ledger.old) (M.behind machine.old) disk.old disk.new }
    ensures done { OnOk result (CarriesOn D.calls M.step (seen_ledger ledger.old) (M.behind machine.old)
        (seen_ledger ledger.new) (M.behind machine.new) disk.old disk.new) }
{
    let due = Due {
        number: held.number,
        name: &held.name,
        time,
    };
    match owners.get_mut(held.place) {
        Some(owner) => take_one(alloc, disk, machine, ledger, boxes, owner, due),
        None => Err(LedgerError::Refused),
    }
}

/// Decides what becomes of each of these claimed files, in the order of their numbers, records that, and removes the file. A crash at any
/// moment leaves a ledger that has some of them, the first ones, and the others where they were.
///
/// # Errors
///
/// Where the disk failed, a growth was refused, or a file is of no owner (`Refused`).
pub fn take_each<D: Disk, M: Machine, B: Boxes>(
    alloc: Global,
    disk: &mut D,
    machine: &mut M,
    ledger: &mut Ledger,
    boxes: &mut B,
    owners: &mut Vec<Owner>,
    all: &[Held],
    time: u64,
) -> Result<(), LedgerError>
    ensures any_moment { SafeFrom D.calls M.step (seen_ledger ledger.old) (M.behind machine.old) disk.old disk.new }
    ensures done { OnOk result (CarriesOn D.calls M.step (seen_ledger ledger.old) (M.behind machine.old)
        (seen_ledger ledger.new) (M.behind machine.new) disk.old disk.new) }
{
    for held in all {
        take_held(alloc, disk, machine, ledger, boxes, owners, held, time)?;
    }
    Ok(())
}
