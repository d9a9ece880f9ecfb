//! How a ledger is opened: its names are brought to the disk, and its commits followed, one after the other.
ghost use Rattle.std.specs.Prelude.{◌≡◌, [], map, IfOk, OnOk};
ghost use Rattle.ledger_disk.specs.Plans.{Did};
ghost use Rattle.ledger_run.specs.Runs.{seen_ledger, settle_calls, Opens};
ghost use Rattle.ledger_run.specs.Following.{Takes, TakesAll, OpensBehind};
ghost use Rattle.ledger_run.specs.Finishing.{LeavesNone, LeavesFit};

use crate::event::read_event;
use crate::finishing::finish_claims;
use crate::folding::{count_commit, follow, may_follow};
use crate::{Ledger, LedgerError, Machine, read_behind};
use ledger_disk::{Disk, DiskError, Folder};
use std::alloc::Global;

// Brings all names to the disk.
fn settle<D: Disk>(disk: &mut D) -> Result<(), DiskError>
    ensures { OnOk result (Did D.calls settle_calls disk.old disk.new) }
{
    disk.sync_folder(Folder::Ledger)?;
    disk.sync_folder(Folder::Boxes)?;
    disk.sync_folder(Folder::Taken)?;
    disk.sync_folder(Folder::Out)
}

// Follows a commit, if it can stand behind those before it.
fn take<M: Machine>(machine: &mut M, ledger: &mut Ledger, text: &[u8]) -> Result<(), LedgerError>
    ensures { OnOk result (Takes text.now (seen_ledger ledger.old) (M.behind machine.old) (seen_ledger ledger.new) (M.behind machine.new)) }
{
    let event = match read_event(ledger.alloc, &ledger.last, text)? {
        Some(event) if may_follow(ledger, event) && ledger.commits < u64::MAX => event,
        _ => return Err(LedgerError::Refused),
    };
    follow(machine, ledger, event)?;
    count_commit(ledger, text)?;
    Ok(())
}

// Follows these commits.
fn take_all<M: Machine>(
    machine: &mut M,
    ledger: &mut Ledger,
    commits: &[Vec<u8>],
) -> Result<(), LedgerError>
    ensures { OnOk result (TakesAll M.step (map (λ text. text.items) commits.now) (seen_ledger ledger.old) (M.behind machine.old)
        (seen_ledger ledger.new) (M.behind machine.new)) }
{
    for text in commits {
        take(machine, ledger, text)?;
    }
    Ok(())
}

// The ledger that stands, settled and followed, where these are the first of its commits.
fn read_chain<D: Disk, M: Machine>(
    known: Ledger,
    disk: &mut D,
    machine: &mut M,
) -> Result<Ledger, LedgerError>
    ensures { IfOk result (λ ledger. OpensBehind D.calls M.step (seen_ledger known) (M.behind machine.old) (seen_ledger ledger) (M.behind machine.new)
        disk.old disk.new) }
{
    settle(disk)?;
    let commits = read_behind(known.alloc, disk, known.commits, u64::MAX)?;
    let mut ledger = known;
    take_all(machine, &mut ledger, &commits)?;
    Ok(ledger)
}

/// Opens the ledger: what its commits come to, in memory and by a machine that has no change behind it yet. Whatever an ended run or a
/// power cut left is brought to the disk before anything is decided by it. Claims that it left half done are finished: of the files in
/// boxes, by their places, those that stand under a number leave their boxes, and the others are left among `drops`, but for those that
/// stand there under several names.
///
/// # Errors
///
/// Where the disk failed, or a commit can't stand behind those before it (`Refused`): it names another one before it, a number that was
/// used, or a text that is not the first that waits.
pub fn open_ledger<D: Disk, M: Machine>(
    alloc: Global,
    disk: &mut D,
    machine: &mut M,
    drops: &mut Vec<u64>,
) -> Result<Ledger, LedgerError>
    requires { M.behind machine.old ≡ [] }
    ensures opens { IfOk result (λ ledger. Opens D.calls M.step (seen_ledger ledger) (M.behind machine.new) disk.old disk.new) }
    ensures finished { OnOk result (LeavesNone D.calls drops.new.items disk.new) }
    ensures fit { OnOk result (LeavesFit D.calls drops.old.items drops.new.items disk.new) }
{
    let none = Ledger::new(alloc);
    let ledger = open_behind(none, disk, machine, drops)?;
    Ok(ledger)
}

/// Opens the ledger so by what its first commits come to, in memory and by the machine: these are not read. A machine may have other
/// changes behind it than they, if each text does the same over both.
///
/// # Errors
///
/// As `open_ledger`.
pub fn open_behind<D: Disk, M: Machine>(
    known: Ledger,
    disk: &mut D,
    machine: &mut M,
    drops: &mut Vec<u64>,
) -> Result<Ledger, LedgerError>
    ensures opens { IfOk result (λ ledger. OpensBehind D.calls M.step (seen_ledger known) (M.behind machine.old) (seen_ledger ledger)
        (M.behind machine.new) disk.old disk.new) }
    ensures finished { OnOk result (LeavesNone D.calls drops.new.items disk.new) }
    ensures fit { OnOk result (LeavesFit D.calls drops.old.items drops.new.items disk.new) }
{
    let alloc = known.alloc;
    let ledger = read_chain(known, disk, machine)?;
    let left = finish_claims(alloc, disk, drops)?;
    *drops = left;
    Ok(ledger)
}
