//! How texts are run: the first that waits, over what those before it left, and then a commit of what it came to.
ghost use Rattle.std.specs.Prelude.{◌≡◌, ◌+◌, [], true, false, Some, IfOk, IfSome, IsNone, OnOk};
ghost use Rattle.ledger_laws.specs.Course.{Ran};
ghost use Rattle.ledger_run.specs.Runs.{seen_ledger, SafeFrom, CarriesOn};
ghost use Rattle.ledger_run.specs.Following.{Tells};

use crate::recording::{give, put_record};
use crate::{Ledger, LedgerError, Machine, Outcome};
use ledger_disk::Disk;
use ledger_text::{Entry, Record};

// The first text that waits, run.
#[derive(Drop)]
pub(crate) struct First {
    pub(crate) number: u64,
    pub(crate) outcome: Outcome,
}

// What the first text that waits comes to, if one waits.
#[tactic(auto, using(crate::proofs::Ahead::none_wait))]
pub(crate) fn first_outcome<M: Machine>(
    machine: &mut M,
    ledger: &Ledger,
) -> Result<Option<First>, LedgerError>
    ensures told { IfOk result (λ found. IfSome found (λ first.
        Tells M.step (Some (Ran first.number first.outcome.printout.items first.outcome.change.items)) (seen_ledger ledger.now) (M.behind machine.old))) }
    ensures stays { M.behind machine.new ≡ M.behind machine.old }
    ensures none { IfOk result (λ found. IsNone found → (seen_ledger ledger.now).waiting ≡ []) }
{
    let Some(first) = ledger.waiting.front() else {
        return Ok(None);
    };
    let outcome = machine.run(&first.text)?;
    Ok(Some(First {
        number: first.number,
        outcome,
    }))
}

// Commits what it came to.
pub(crate) fn put_first<D: Disk, M: Machine>(
    disk: &mut D,
    machine: &mut M,
    ledger: &mut Ledger,
    time: u64,
    first: &First,
) -> Result<(), LedgerError>
    requires { Tells M.step (Some (Ran first.now.number first.now.outcome.printout.items first.now.outcome.change.items))
        (seen_ledger ledger.old) (M.behind machine.old) }
    ensures any_moment { SafeFrom D.calls M.step (seen_ledger ledger.old) (M.behind machine.old) disk.old disk.new }
    ensures done { OnOk result (CarriesOn D.calls M.step (seen_ledger ledger.old) (M.behind machine.old)
        (seen_ledger ledger.new) (M.behind machine.new) disk.old disk.new) }
    ensures one { OnOk result (ledger.new.commits ≡ ledger.old.commits + 1) }
{
    let said = Record::Ran(first.number, &first.outcome.printout);
    put_record(
        disk,
        machine,
        ledger,
        Entry { time, record: said },
        &first.outcome.change,
    )
}

/// Runs the first text that waits, if one does, and commits what it came to. A crash at any moment leaves the ledger as it was, or with
/// that commit: the text waits, or it ran once, over what the texts before it left. Whether one waited: so a run commits something, or
/// nothing waits.
///
/// # Errors
///
/// Where the disk or the machine failed.
pub fn run_first<D: Disk, M: Machine>(
    disk: &mut D,
    machine: &mut M,
    ledger: &mut Ledger,
    time: u64,
) -> Result<bool, LedgerError>
    ensures any_moment { SafeFrom D.calls M.step (seen_ledger ledger.old) (M.behind machine.old) disk.old disk.new }
    ensures done { OnOk result (CarriesOn D.calls M.step (seen_ledger ledger.old) (M.behind machine.old)
        (seen_ledger ledger.new) (M.behind machine.new) disk.old disk.new) }
    ensures ran { IfOk result (λ ran. ran ≡ true → ledger.new.commits ≡ ledger.old.commits + 1) }
    ensures none { IfOk result (λ ran. ran ≡ false → (seen_ledger ledger.new).waiting ≡ []) }
{
    let Some(first) = first_outcome(machine, ledger)? else {
        return Ok(false);
    };
    put_first(disk, machine, ledger, time, &first)?;
    Ok(true)
}

/// Runs so many of the texts that wait, each with a commit of its own; whether none waits any more, as far as that was seen.
///
/// # Errors
///
/// Where the disk or the machine failed.
pub fn run_texts<D: Disk, M: Machine>(
    disk: &mut D,
    machine: &mut M,
    ledger: &mut Ledger,
    count: usize,
    time: u64,
) -> Result<bool, LedgerError>
    ensures any_moment { SafeFrom D.calls M.step (seen_ledger ledger.old) (M.behind machine.old) disk.old disk.new }
    ensures done { OnOk result (CarriesOn D.calls M.step (seen_ledger ledger.old) (M.behind machine.old)
        (seen_ledger ledger.new) (M.behind machine.new) disk.old disk.new) }
    ensures over { IfOk result (λ over. over ≡ true → (seen_ledger ledger.new).waiting ≡ []) }
{
    for _ in 0..count {
        if !run_first(disk, machine, ledger, time)? {
            return Ok(true);
        }
    }
    Ok(false)
}

/// Runs so many of the texts that wait, and puts the answers that are owed. A crash at any moment leaves a ledger in which each text ran
/// once, over what the texts before it left, and under each answer's name nothing or that answer.
///
/// # Errors
///
/// Where the disk or the machine failed.
pub fn run_and_give<D: Disk, M: Machine>(
    disk: &mut D,
    machine: &mut M,
    ledger: &mut Ledger,
    count: usize,
    time: u64,
) -> Result<(), LedgerError>
    ensures any_moment { SafeFrom D.calls M.step (seen_ledger ledger.old) (M.behind machine.old) disk.old disk.new }
    ensures done { OnOk result (CarriesOn D.calls M.step (seen_ledger ledger.old) (M.behind machine.old)
        (seen_ledger ledger.new) (M.behind machine.new) disk.old disk.new) }
{
    run_texts(disk, machine, ledger, count, time)?;
    give(disk, machine, ledger, time)?;
    Ok(())
}
