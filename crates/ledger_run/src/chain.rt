//! How the ledger is read.
ghost use Rattle.std.specs.Prelude.{◌≡◌, ◌-◌, map, IfOk};
ghost use Rattle.ledger_disk.specs.Disks.{Disk as AnyDisk, AreTrue, after_all, found_in};
ghost use Rattle.ledger_laws.specs.Commits.{read_from};

use ledger_disk::{Disk, DiskError, Name};
use std::alloc::Global;

/// The commits of the ledger, in their order: those before the first number of which none stands, and at most so many.
///
/// # Errors
///
/// Where the disk failed.
pub fn read_ledger<D: Disk>(
    alloc: Global,
    disk: &mut D,
    most: u64,
) -> Result<Vec<Vec<u8>>, DiskError>
    // If the disk told the truth, whatever it was when the run began; nothing of it changes.
    ensures { IfOk result (λ commits. (first : AnyDisk) → AreTrue (D.calls disk.new) first
        → (map (λ file. file.items) commits.items ≡ read_from most 0 (found_in (after_all (D.calls disk.old) first)))
        × (after_all (D.calls disk.new) first ≡ after_all (D.calls disk.old) first)) }
{
    read_behind(alloc, disk, 0, most)
}

/// The same, from this number on: those before the first later number of which none stands, and before this one.
///
/// # Errors
///
/// Where the disk failed.
pub fn read_behind<D: Disk>(
    alloc: Global,
    disk: &mut D,
    from: u64,
    end: u64,
) -> Result<Vec<Vec<u8>>, DiskError>
    ensures { IfOk result (λ commits. (first : AnyDisk) → AreTrue (D.calls disk.new) first
        → (map (λ file. file.items) commits.items ≡ read_from (end - from) from (found_in (after_all (D.calls disk.old) first)))
        × (after_all (D.calls disk.new) first ≡ after_all (D.calls disk.old) first)) }
{
    let mut commits = Vec::new(alloc);
    for number in from..end {
        match disk.read(Name::Commit(number))? {
            Some(bytes) => commits.push(bytes)?,
            None => return Ok(commits),
        }
    }
    Ok(commits)
}
