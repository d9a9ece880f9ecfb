//! How a commit is put: call by call.
ghost use Rattle.std.specs.Prelude.{OnOk};
ghost use Rattle.ledger_disk.specs.Plans.{Did, Began};
ghost use Rattle.ledger_laws.specs.Commits.{commit_calls};
ghost use Rattle.ledger_run.specs.Moments.{LeavesEither};

use ledger_disk::{Disk, DiskError, Folder, Name};

// Puts the commit of this number whole.
pub(crate) fn put_commit<D: Disk>(disk: &mut D, number: u64, bytes: &[u8]) -> Result<(), DiskError>
    ensures did { OnOk result (Did D.calls (commit_calls number bytes.now) disk.old disk.new) }
    ensures began { Began D.calls (commit_calls number bytes.now) disk.old disk.new }
{
    disk.write(Name::Draft, bytes)?;
    disk.sync_file(Name::Draft)?;
    disk.rename(Name::Draft, Name::Commit(number))?;
    disk.sync_folder(Folder::Ledger)
}

/// Puts the commit of this number whole. A crash at any moment leaves the ledger as it was, or with this commit.
///
/// # Errors
///
/// Where the disk failed: open the ledger anew, and see whether the commit stands.
pub fn commit<D: Disk>(disk: &mut D, number: u64, bytes: &[u8]) -> Result<(), DiskError>
    ensures did { OnOk result (Did D.calls (commit_calls number bytes.now) disk.old disk.new) }
    ensures any_moment { LeavesEither D.calls bytes.now number disk.old disk.new }
{
    put_commit(disk, number, bytes)
}
