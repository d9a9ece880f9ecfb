//! How what happens is recorded: as one commit more, which the ledger in memory follows.
ghost use Rattle.std.specs.Prelude.{◌≡◌, ◌+◌, true, Some, IfOk, OnOk};
ghost use Rattle.ledger_disk.specs.Plans.{Did, Began};
ghost use Rattle.ledger_text.specs.Text.{commit_of};
ghost use Rattle.ledger_text.specs.Digests.{digest_of};
ghost use Rattle.ledger_text.specs.Records.{seen};
ghost use Rattle.ledger_laws.specs.Commits.{commit_calls};
ghost use Rattle.ledger_run.specs.Meaning.{event_of, event_behind};
ghost use Rattle.ledger_run.specs.Runs.{seen_ledger, SafeFrom, CarriesOn};
ghost use Rattle.ledger_run.specs.Following.{seen_event, event_sent, first_number, may_follow, Tells, after_event, changed_by, with_commit, runs};
ghost use Rattle.ledger_run.specs.Senders.{sent_by, sent_in};
ghost use Rattle.ledger_run.specs.Attempts.{Recorded};

use crate::answers::put_answers;
use crate::commits::put_commit;
use crate::event::{Event, event_text, said_event};
use crate::folding::{count_commit, follow, may_follow};
use crate::{Ledger, LedgerError, Machine};
use ledger_disk::{Disk, DiskError};
use ledger_text::{Entry, Record};

// The next event, if it may be that.
fn next_event<'a>(
    ledger: &Ledger,
    said: Record<'a>,
    change: &'a [u8],
) -> Result<Event<'a>, LedgerError>
    ensures is { IfOk result (λ event. event_of (seen said.entry) change.now ≡ Some (seen_event event)) }
    ensures sent { IfOk result (λ event. event_sent event ≡ sent_by (seen said.entry)) }
    ensures may { IfOk result (λ event. may_follow ledger.now.next (first_number (seen_ledger ledger.now).waiting) (seen_event event) ≡ true) }
{
    match said_event(said, change) {
        Some(event) if may_follow(ledger, event) => Ok(event),
        _ => Err(LedgerError::Refused),
    }
}

// The text of the next commit.
fn next_text(ledger: &Ledger, entry: Entry<'_>, change: &[u8]) -> Result<Vec<u8>, LedgerError>
    ensures says { IfOk result (λ text. event_behind ledger.now.last.items (commit_of text.items) ≡ event_of (seen entry.entry.«record») change.now) }
    ensures sent { IfOk result (λ text. sent_in (commit_of text.items) ≡ sent_by (seen entry.entry.«record»)) }
{
    match event_text(ledger.alloc, &ledger.last, entry, change)? {
        Some(text) => Ok(text),
        None => Err(LedgerError::Refused),
    }
}

// Puts the commit, and follows it.
fn put<D: Disk, M: Machine>(
    disk: &mut D,
    machine: &mut M,
    ledger: &mut Ledger,
    event: Event<'_>,
    text: &[u8],
) -> Result<(), LedgerError>
    requires { may_follow ledger.old.next (first_number (seen_ledger ledger.old).waiting) (seen_event event) ≡ true }
    ensures began { Began D.calls (commit_calls ledger.old.commits text.now) disk.old disk.new }
    ensures did { OnOk result (Did D.calls (commit_calls ledger.old.commits text.now) disk.old disk.new) }
    ensures ledger { OnOk result (seen_ledger ledger.new ≡ with_commit (digest_of text.now) (after_event event.entry (seen_ledger ledger.old))) }
    ensures machine { OnOk result (M.behind machine.new ≡ changed_by event.entry (M.behind machine.old)) }
{
    if ledger.commits == u64::MAX {
        return Err(LedgerError::Refused);
    }
    put_commit(disk, ledger.commits, text)?;
    follow(machine, ledger, event)?;
    count_commit(ledger, text)?;
    Ok(())
}

// One record more, with what it changes. A crash at any moment leaves the ledger as it was, or with it.
pub(crate) fn put_record<D: Disk, M: Machine>(
    disk: &mut D,
    machine: &mut M,
    ledger: &mut Ledger,
    entry: Entry<'_>,
    change: &[u8],
) -> Result<(), LedgerError>
    requires { Tells M.step (event_of (seen entry.«record») change.now) (seen_ledger ledger.old) (M.behind machine.old) }
    ensures any_moment { SafeFrom D.calls M.step (seen_ledger ledger.old) (M.behind machine.old) disk.old disk.new }
    ensures done { OnOk result (CarriesOn D.calls M.step (seen_ledger ledger.old) (M.behind machine.old)
        (seen_ledger ledger.new) (M.behind machine.new) disk.old disk.new) }
    ensures one { OnOk result (ledger.new.commits ≡ ledger.old.commits + 1) }
    ensures recorded { OnOk result (Recorded (seen entry.entry.«record») change.now (seen_ledger ledger.old) (seen_ledger ledger.new)) }
{
    let event = next_event(ledger, entry.record, change)?;
    let text = next_text(ledger, entry, change)?;
    put(disk, machine, ledger, event, &text)?;
    Ok(())
}

fn runs(said: Record<'_>) -> bool
    ensures { result ≡ runs (seen said.entry) }
{
    matches!(said, Record::Ran(_, _))
}

/// Records what is no text's run: a file was taken or refused, the first text that waits dropped, or the operator did something, with what
/// that changes. A crash at any moment leaves the ledger as it was, or with this commit.
///
/// # Errors
///
/// Where the disk or the machine failed, or the record can't be the next (`Refused`): its number was used, or is not that of the first
/// text that waits; it is of a run, or a part of one.
pub fn record_act<D: Disk, M: Machine>(
    disk: &mut D,
    machine: &mut M,
    ledger: &mut Ledger,
    entry: Entry<'_>,
    change: &[u8],
) -> Result<(), LedgerError>
    ensures any_moment { SafeFrom D.calls M.step (seen_ledger ledger.old) (M.behind machine.old) disk.old disk.new }
    ensures done { OnOk result (CarriesOn D.calls M.step (seen_ledger ledger.old) (M.behind machine.old)
        (seen_ledger ledger.new) (M.behind machine.new) disk.old disk.new) }
    ensures recorded { OnOk result (Recorded (seen entry.entry.«record») change.now (seen_ledger ledger.old) (seen_ledger ledger.new)) }
{
    if runs(entry.record) {
        return Err(LedgerError::Refused);
    }
    put_record(disk, machine, ledger, entry, change)
}

// Puts the answers that are owed, none of which is on the disk for good.
fn put_owed<D: Disk, M: Machine>(
    disk: &mut D,
    machine: &M,
    ledger: &Ledger,
) -> Result<(), DiskError>
    ensures any_moment { SafeFrom D.calls M.step (seen_ledger ledger.now) (M.behind machine.now) disk.old disk.new }
    ensures done { OnOk result (CarriesOn D.calls M.step (seen_ledger ledger.now) (M.behind machine.now)
        (seen_ledger ledger.now) (M.behind machine.now) disk.old disk.new) }
{
    put_answers(disk, &ledger.owed)?;
    Ok(())
}

// The numbers of the first and the last answer that is owed.
fn owed_numbers(ledger: &Ledger) -> Option<(u64, u64)> {
    match (ledger.owed.first(), ledger.owed.last()) {
        (Some(first), Some(last)) => Some((first.number, last.number)),
        _ => None,
    }
}

/// Puts the answers that are owed, and records that. A crash at any moment leaves each of them absent, or as the ledger has it.
///
/// # Errors
///
/// Where the disk failed; they may be put again.
pub fn give<D: Disk, M: Machine>(
    disk: &mut D,
    machine: &mut M,
    ledger: &mut Ledger,
    time: u64,
) -> Result<(), LedgerError>
    ensures any_moment { SafeFrom D.calls M.step (seen_ledger ledger.old) (M.behind machine.old) disk.old disk.new }
    ensures done { OnOk result (CarriesOn D.calls M.step (seen_ledger ledger.old) (M.behind machine.old)
        (seen_ledger ledger.new) (M.behind machine.new) disk.old disk.new) }
{
    let Some((first, last)) = owed_numbers(ledger) else {
        return Ok(());
    };
    put_owed(disk, machine, ledger)?;
    record_act(
        disk,
        machine,
        ledger,
        Entry {
            time,
            record: Record::Gave(first, last),
        },
        &[],
    )?;
    Ok(())
}
