//! What the operator does is recorded, with what it changes.
ghost use Rattle.std.specs.Prelude.{OnOk};
ghost use Rattle.ledger_text.specs.Records.{Edit};
ghost use Rattle.ledger_run.specs.Runs.{seen_ledger, SafeFrom, CarriesOn};
ghost use Rattle.ledger_run.specs.Attempts.{Recorded};
ghost use Rattle.ledger_site.specs.Acts.{Founds};

use ledger_disk::Disk;
use ledger_run::{Ledger, LedgerError, Machine, record_act};
use ledger_text::{Entry, Record};

/// Who does something, and when.
#[derive(Clone, Copy)]
pub struct Act<'a> {
    /// Seconds since the beginning of 1970, UTC.
    pub time: u64,
    /// Who does it.
    pub who: &'a [u8],
    /// What it is, as the history shows it.
    pub what: &'a [u8],
}

/// Records an act of the operator, and makes this change. A crash at any moment leaves the ledger as it was, or with this act.
///
/// # Errors
///
/// Where the disk failed, a growth was refused, or the change is none of this machine's (`Refused`): then the ledger in memory is to be
/// opened anew.
pub fn edit<D: Disk, M: Machine>(
    disk: &mut D,
    machine: &mut M,
    ledger: &mut Ledger,
    act: Act<'_>,
    change: &[u8],
) -> Result<(), LedgerError>
    ensures any_moment { SafeFrom D.calls M.step (seen_ledger ledger.old) (M.behind machine.old) disk.old disk.new }
    ensures done { OnOk result (CarriesOn D.calls M.step (seen_ledger ledger.old) (M.behind machine.old)
        (seen_ledger ledger.new) (M.behind machine.new) disk.old disk.new) }
    ensures recorded { OnOk result (Recorded (Edit act.entry.who.now act.entry.what.now) change.now (seen_ledger ledger.old) (seen_ledger ledger.new)) }
{
    let said = Record::Edit(act.who, act.what);
    record_act(
        disk,
        machine,
        ledger,
        Entry {
            time: act.time,
            record: said,
        },
        change,
    )
}

/// Makes the first two records of a site: the data sets, and then the tables. So a ledger whose tables are empty is one of a site that is
/// not made yet.
///
/// # Errors
///
/// Where the disk failed, a growth was refused, or one of the changes is none of this machine's (`Refused`).
pub fn found<D: Disk, M: Machine>(
    disk: &mut D,
    machine: &mut M,
    ledger: &mut Ledger,
    act: Act<'_>,
    sets: &[u8],
    tables: &[u8],
) -> Result<(), LedgerError>
    ensures any_moment { SafeFrom D.calls M.step (seen_ledger ledger.old) (M.behind machine.old) disk.old disk.new }
    ensures done { OnOk result (CarriesOn D.calls M.step (seen_ledger ledger.old) (M.behind machine.old)
        (seen_ledger ledger.new) (M.behind machine.new) disk.old disk.new) }
    ensures founds { OnOk result (Founds act.entry.who.now act.entry.what.now sets.now tables.now (seen_ledger ledger.old) (seen_ledger ledger.new)) }
{
    edit(disk, machine, ledger, act, sets)?;
    edit(disk, machine, ledger, act, tables)?;
    Ok(())
}
