//! What was decided of a claimed file is recorded.
ghost use Rattle.std.specs.Prelude.{◌≡◌, OnOk};
ghost use Rattle.ledger_text.specs.Records.{seen};
ghost use Rattle.ledger_run.specs.Runs.{seen_ledger, SafeFrom, CarriesOn};
ghost use Rattle.ledger_boxes.specs.Admission.{seen_decision, said_of, handed_behind};
ghost use Rattle.ledger_boxes.specs.Taking.{TakesUp};

use crate::admission::{Decision, Owner, decide};
use crate::boxes::Boxes;
use ledger_disk::Disk;
use ledger_run::{Ledger, LedgerError, Machine, record_act};
use ledger_text::{Claimed, Entry, Record};
use preflight::HandedIn;
use std::alloc::Global;

/// A claimed file, the name that it had, and when it is taken up.
#[derive(Clone, Copy)]
pub struct Due<'a> {
    /// Its number.
    pub number: u64,
    /// The name that it had in its box, as it is shown.
    pub name: &'a [u8],
    /// Seconds since the beginning of 1970, UTC.
    pub time: u64,
}

/// Decides what becomes of a claimed file, and records that. A crash at any moment leaves the ledger as it was, or with this record; and
/// whatever becomes of the file concerns its user alone.
///
/// # Errors
///
/// Where the disk failed, a growth was refused, or the file's number was used.
pub fn take_up<D: Disk, M: Machine, B: Boxes>(
    alloc: Global,
    disk: &mut D,
    machine: &mut M,
    ledger: &mut Ledger,
    boxes: &mut B,
    owner: &mut Owner,
    due: Due<'_>,
) -> Result<(), LedgerError>
    ensures any_moment { SafeFrom D.calls M.step (seen_ledger ledger.old) (M.behind machine.old) disk.old disk.new }
    ensures done { OnOk result (CarriesOn D.calls M.step (seen_ledger ledger.old) (M.behind machine.old)
        (seen_ledger ledger.new) (M.behind machine.new) disk.old disk.new) }
    ensures took { OnOk result (TakesUp B.seen owner.old owner.new due.entry.name.now due.entry.number boxes.old boxes.new) }
{
    let decision = decide(alloc, boxes, owner, due.name, due.number)?;
    record(disk, machine, ledger, owner, due, &decision)?;
    owner.handed = handed_behind(owner.handed, &decision);
    Ok(())
}

// Records what was decided.
fn record<D: Disk, M: Machine>(
    disk: &mut D,
    machine: &mut M,
    ledger: &mut Ledger,
    owner: &Owner,
    due: Due<'_>,
    decision: &Decision,
) -> Result<(), LedgerError>
    ensures any_moment { SafeFrom D.calls M.step (seen_ledger ledger.old) (M.behind machine.old) disk.old disk.new }
    ensures done { OnOk result (CarriesOn D.calls M.step (seen_ledger ledger.old) (M.behind machine.old)
        (seen_ledger ledger.new) (M.behind machine.new) disk.old disk.new) }
{
    let claimed = Claimed {
        number: due.number,
        account: owner.account.as_bytes(),
        uid: owner.uid,
        name: due.name,
    };
    record_act(
        disk,
        machine,
        ledger,
        Entry {
            time: due.time,
            record: record_of(claimed, decision),
        },
        &[],
    )
}

/// The record of what was decided of a claimed file.
pub fn record_of<'a>(claimed: Claimed<'a>, decision: &'a Decision) -> Record<'a>
    ensures { seen result ≡ said_of claimed.entry.number claimed.entry.uid claimed.entry.account.now claimed.entry.name.now (seen_decision decision.now) }
{
    match decision {
        Decision::Takes(text, _) => Record::Took(claimed, text),
        Decision::Refuses(reply) => Record::Refused(claimed, reply),
    }
}

// What an account has handed in then.
fn handed_behind(handed: HandedIn, decision: &Decision) -> HandedIn
    ensures { result ≡ handed_behind handed (seen_decision decision.now) }
{
    match decision {
        Decision::Takes(_, tally) => handed.with_text(*tally),
        Decision::Refuses(_) => handed,
    }
}
