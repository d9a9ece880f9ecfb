//! How claims that a crash left half done are finished: a file that stands under a number leaves its box.
ghost use Rattle.std.specs.Prelude.{◌≡◌, ◌+◌, ◌^◌, IfOk, OnOk, OnErr};
ghost use Rattle.ledger_run.specs.Claiming.{DidSome, BeganSome};
ghost use Rattle.ledger_run.specs.Finishing.{Looks, Adds, Gathered, bound, AreSorted, leave_calls, Leaves, Finishes};
ghost use Rattle.ledger_run.specs.Sorting.{AreSeen, SeesOne};

use crate::claims::remove_each;
use ledger_disk::{Disk, DiskError, Folder, Identity, Name};
use ledger_names::{Boxed, Sorted, sort_boxed};
use std::alloc::Global;

// The file of this number is one of these from here on.
fn add_file<D: Disk>(disk: &mut D, number: u64, files: &mut Vec<Identity>) -> Result<(), DiskError>
    ensures err { OnErr result (Looks D.calls (λ which. Unit {0}) disk.old disk.new) }
    ensures ok { OnOk result (Looks D.calls (Adds number files.old.items files.new.items) disk.old disk.new) }
{
    match disk.look(Name::Claimed(number))? {
        Some(file) => {
            files.push(file)?;
            Ok(())
        }
        None => Ok(()),
    }
}

fn behind(number: u64) -> Option<u64>
    ensures { bound result ≡ number + 1 }
{
    if number == u64::MAX {
        None
    } else {
        Some(number + 1)
    }
}

// The file of the next number from this one on is one of these from here on; the number behind it, if there is one.
fn add_next<D: Disk>(
    disk: &mut D,
    from: u64,
    files: &mut Vec<Identity>,
) -> Result<Option<u64>, DiskError>
    ensures err { OnErr result (Looks D.calls (λ which. Unit {0}) disk.old disk.new) }
    ensures ok { IfOk result (λ next. Looks D.calls
        (λ which. Gathered files.old.items from which → Gathered files.new.items (bound next) which) disk.old disk.new) }
{
    let Some(number) = disk.next_claimed(from)? else {
        return Ok(None);
    };
    add_file(disk, number, files)?;
    Ok(behind(number))
}

// The files that stand under numbers.
fn claimed_files<D: Disk>(alloc: Global, disk: &mut D) -> Result<Vec<Identity>, DiskError>
    ensures err { OnErr result (Looks D.calls (λ which. Unit {0}) disk.old disk.new) }
    ensures ok { IfOk result (λ files. Looks D.calls (Gathered files.items (2 ^ 64)) disk.old disk.new) }
{
    let mut files = Vec::new(alloc);
    let mut from = 0;
    for _ in 0..u64::MAX {
        match add_next(disk, from, &mut files)? {
            Some(next) => from = next,
            None => return Ok(files),
        }
    }
    Err(DiskError::Failed)
}

// The file in a box at this place is one of these from here on, if one is there.
fn see_drop<D: Disk>(disk: &mut D, drop: u64, boxed: &mut Vec<Boxed>) -> Result<(), DiskError>
    ensures err { OnErr result (Looks D.calls (λ which. Unit {0}) disk.old disk.new) }
    ensures ok { OnOk result (Looks D.calls (SeesOne drop boxed.old.items boxed.new.items) disk.old disk.new) }
{
    match disk.look(Name::Dropped(drop))? {
        Some(file) => {
            boxed.push(Boxed { drop, file })?;
            Ok(())
        }
        None => Ok(()),
    }
}

// The files in boxes at these places.
fn see_drops<D: Disk>(alloc: Global, disk: &mut D, drops: &[u64]) -> Result<Vec<Boxed>, DiskError>
    ensures err { OnErr result (Looks D.calls (λ which. Unit {0}) disk.old disk.new) }
    ensures ok { IfOk result (λ boxed. Looks D.calls (AreSeen drops.now boxed.items) disk.old disk.new) }
{
    let mut boxed = Vec::new(alloc);
    for drop in drops {
        see_drop(disk, *drop, &mut boxed)?;
    }
    Ok(boxed)
}

// Which of these files stand under numbers, and which can be claimed: the places of those, and of these.
fn sort_drops<D: Disk>(alloc: Global, disk: &mut D, drops: &[u64]) -> Result<Sorted, DiskError>
    ensures err { OnErr result (Looks D.calls (λ which. Unit {0}) disk.old disk.new) }
    ensures ok { IfOk result (λ sorted. Looks D.calls (AreSorted drops.now sorted.done.items sorted.left.items) disk.old disk.new) }
{
    let files = claimed_files(alloc, disk)?;
    let boxed = see_drops(alloc, disk, drops)?;
    let sorted = sort_boxed(alloc, &files, &boxed)?;
    Ok(sorted)
}

// These files leave their boxes, but where the system refuses it, and that is brought to the disk.
fn leave<D: Disk>(alloc: Global, disk: &mut D, done: &[u64]) -> Result<(), DiskError>
    ensures did { OnOk result (DidSome D.calls leave_calls done.now disk.old disk.new) }
    ensures began { BeganSome D.calls leave_calls done.now disk.old disk.new }
{
    let mut gone = Vec::new(alloc);
    remove_each(disk, done, &mut gone)?;
    disk.sync_folder(Folder::Boxes)?;
    Ok(())
}

/// Of these files in boxes, by their places, those that stand under a number leave their boxes: a run that claimed them ended before it
/// took them out. One that the system lets nobody take out stays there and under its number. The places of the others that are there, but
/// for files that stand there under several names: those are passed over, as one of two names would outlive the file's claim.
///
/// # Errors
///
/// Where a growth was refused, or the disk failed.
pub fn finish_claims<D: Disk>(
    alloc: Global,
    disk: &mut D,
    drops: &[u64],
) -> Result<Vec<u64>, DiskError>
    ensures began { Leaves D.calls disk.old disk.new }
    ensures did { IfOk result (λ left. Finishes D.calls drops.now left.items disk.old disk.new) }
{
    let sorted = sort_drops(alloc, disk, drops)?;
    let Sorted { done, left } = sorted;
    leave(alloc, disk, &done)?;
    Ok(left)
}
