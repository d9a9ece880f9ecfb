//! The first text that waits is tried: it runs, or the machine breaks it off and it waits still. One that is not to be tried again is
//! dropped.
ghost use Rattle.std.specs.Prelude.{◌≡◌, true, false, [], IfOk, OnOk};
ghost use Rattle.ledger_run.specs.Runs.{seen_ledger, SafeFrom, CarriesOn};
ghost use Rattle.ledger_run.specs.Attempts.{CameTo, FirstAnswered};

use crate::folding::first_number;
use crate::recording::record_act;
use crate::running::{first_outcome, put_first};
use crate::{Ledger, LedgerError, Machine};
use ledger_disk::Disk;
use ledger_text::{Entry, Record};

/// What became of the first text that waits.
#[derive(Clone, Copy)]
pub enum Attempt {
    /// None waits.
    NoneWaits,
    /// It ran, and what it came to is committed.
    Ran,
    /// The machine broke it off, for this reason: it has no effect, and waits still.
    BrokenOff(LedgerError),
}

/// Runs the first text that waits, if one does, and commits what it came to, as `run_first` does; where the machine breaks it off, nothing
/// is done, and the ledger in memory stays as it was.
///
/// # Errors
///
/// Where the disk failed, or the machine did not follow what was committed.
pub fn try_first<D: Disk, M: Machine>(
    disk: &mut D,
    machine: &mut M,
    ledger: &mut Ledger,
    time: u64,
) -> Result<Attempt, LedgerError>
    ensures any_moment { SafeFrom D.calls M.step (seen_ledger ledger.old) (M.behind machine.old) disk.old disk.new }
    ensures done { OnOk result (CarriesOn D.calls M.step (seen_ledger ledger.old) (M.behind machine.old)
        (seen_ledger ledger.new) (M.behind machine.new) disk.old disk.new) }
    ensures came { IfOk result (λ made. CameTo D.calls made (seen_ledger ledger.old) (seen_ledger ledger.new) disk.old disk.new) }
{
    let found = match first_outcome(machine, ledger) {
        Ok(found) => found,
        Err(why) => return Ok(Attempt::BrokenOff(why)),
    };
    let Some(first) = found else {
        return Ok(Attempt::NoneWaits);
    };
    put_first(disk, machine, ledger, time, &first)?;
    Ok(Attempt::Ran)
}

/// Why a text is dropped.
#[derive(Clone, Copy)]
pub struct Dropping<'a> {
    /// When it is: in seconds since the beginning of 1970, UTC.
    pub time: u64,
    /// Why, in a word.
    pub reason: &'a [u8],
    /// What its user is told.
    pub reply: &'a [u8],
}

/// Records that the first text that waits is dropped, if one does; whether one waited. It does not run, and this reply is its answer. A
/// crash at any moment leaves the ledger as it was, or with that commit.
///
/// # Errors
///
/// Where the disk failed.
pub fn drop_first<D: Disk, M: Machine>(
    disk: &mut D,
    machine: &mut M,
    ledger: &mut Ledger,
    dropping: Dropping<'_>,
) -> Result<bool, LedgerError>
    ensures any_moment { SafeFrom D.calls M.step (seen_ledger ledger.old) (M.behind machine.old) disk.old disk.new }
    ensures done { OnOk result (CarriesOn D.calls M.step (seen_ledger ledger.old) (M.behind machine.old)
        (seen_ledger ledger.new) (M.behind machine.new) disk.old disk.new) }
    ensures dropped { IfOk result (λ dropped. dropped ≡ true → FirstAnswered dropping.entry.reply.now (seen_ledger ledger.old) (seen_ledger ledger.new)) }
    ensures none { IfOk result (λ dropped. dropped ≡ false → (seen_ledger ledger.new).waiting ≡ []) }
{
    let Some(number) = first_number(ledger) else {
        return Ok(false);
    };
    let said = Record::Dropped(number, dropping.reason, dropping.reply);
    record_act(
        disk,
        machine,
        ledger,
        Entry {
            time: dropping.time,
            record: said,
        },
        &[],
    )?;
    Ok(true)
}
