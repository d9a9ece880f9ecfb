//! Submissions are run, until one is broken off.
ghost use Rattle.std.specs.Prelude.{IfOk, OnOk};
ghost use Rattle.ledger_run.specs.Runs.{seen_ledger, SafeFrom, CarriesOn};
ghost use Rattle.ledger_site.specs.Serving.{Leaves};

use ledger_disk::Disk;
use ledger_run::{Attempt, Ledger, LedgerError, Machine, try_first};

/// What so many submissions came to.
#[derive(Clone, Copy)]
pub enum Came {
    /// None waits any more.
    Over,
    /// So many ran; others may wait.
    On,
    /// The machine broke off the first that waits, for this reason: it has no effect, and waits still.
    Broken(LedgerError),
}

/// Runs so many of the submissions that wait, each with a commit of its own, until the machine breaks one off. A crash at any moment leaves
/// a ledger in which each submission ran once, over what the submissions before it left.
///
/// # Errors
///
/// Where the disk failed, or the machine did not follow what was committed.
pub fn try_some<D: Disk, M: Machine>(
    disk: &mut D,
    machine: &mut M,
    ledger: &mut Ledger,
    count: usize,
    time: u64,
) -> Result<Came, LedgerError>
    ensures any_moment { SafeFrom D.calls M.step (seen_ledger ledger.old) (M.behind machine.old) disk.old disk.new }
    ensures done { OnOk result (CarriesOn D.calls M.step (seen_ledger ledger.old) (M.behind machine.old)
        (seen_ledger ledger.new) (M.behind machine.new) disk.old disk.new) }
    ensures left { IfOk result (λ came. Leaves came count (seen_ledger ledger.old) (seen_ledger ledger.new)) }
{
    for _ in 0..count {
        match try_first(disk, machine, ledger, time)? {
            Attempt::Ran => {}
            Attempt::NoneWaits => return Ok(Came::Over),
            Attempt::BrokenOff(why) => return Ok(Came::Broken(why)),
        }
    }
    Ok(Came::On)
}
