//! A disk as the ledger uses it: names in folders.
ghost use Rattle.std.specs.Prelude.{◌≡◌, [], ◌∷◌, List, option_map, IfOk, OnOk, OnErr};
ghost use Rattle.ledger_disk.specs.Disks.{Call, Write, SyncFile, Rename, Link, Remove, SyncFolder, Saw, Looked, Next};
ghost use Rattle.ledger_disk.specs.Disks.{after_all, found_in, empty, which_behind, none_there};
ghost use Rattle.ledger_disk.specs.Plans.{Did, Began};

use crate::{Folder, Identity, Name};
use std::alloc::{AllocError, AllocFailed};
use std::io::{self, ErrorKind};

/// Why a call on a disk failed.
#[derive(Clone, Copy, PartialEq, Eq)]
pub enum DiskError {
    /// A growth was refused.
    Memory,
    /// The disk is full.
    Full,
    /// The system refused it.
    Failed,
}

impl From<AllocError> for DiskError {
    fn from(_: AllocError) -> DiskError {
        DiskError::Memory
    }
}

impl<T: Drop> From<AllocFailed<T>> for DiskError {
    fn from(_: AllocFailed<T>) -> DiskError {
        DiskError::Memory
    }
}

impl From<io::Error> for DiskError {
    fn from(error: io::Error) -> DiskError {
        match error.kind() {
            ErrorKind::OutOfMemory => DiskError::Memory,
            ErrorKind::StorageFull | ErrorKind::QuotaExceeded => DiskError::Full,
            _ => DiskError::Failed,
        }
    }
}

/// Names in folders. A call that fails was made or was not; a crash in the midst of a call leaves what one before or behind it does.
pub trait Disk {
    /// The calls that were made, the first of them first.
    ghost calls: { Self → List Call };

    /// Whether a read tells what the calls before it left on a disk that had no file, as a disk in memory does. What files the system
    /// has no clause can say: there it is `⊥`.
    ghost tells: { Type 0 };

    /// The bytes of a file, if it is there.
    ///
    /// # Errors
    ///
    /// Where a growth was refused, or the file can't be read.
    fn read(&mut self, name: Name) -> Result<Option<Vec<u8>>, DiskError>
        ensures did { IfOk result (λ found. Did calls (Saw name (option_map (λ file. file.items) found) ∷ []) self.old self.new) }
        ensures found { tells → IfOk result (λ found. option_map (λ file. file.items) found ≡ found_in (after_all (calls self.old) empty) name) }
        ensures none { OnErr result (calls self.new ≡ calls self.old) };

    /// Which file a name has, if one is there; a link is not followed. Two names have the same file if and only if they have the same
    /// identity, as long as nothing is removed between the looks: a system may give the number of a file that is gone to another.
    ///
    /// # Errors
    ///
    /// Where the system can't say it.
    fn look(&mut self, name: Name) -> Result<Option<Identity>, DiskError>
        ensures did { IfOk result (λ found. Did calls (Looked name found ∷ []) self.old self.new) }
        ensures found { tells → IfOk result (λ found. found ≡ (which_behind 0 (calls self.old) none_there name).now) }
        ensures none { OnErr result (calls self.new ≡ calls self.old) };

    /// The least number, from this one on, under which a claimed file stands, if there is one.
    ///
    /// # Errors
    ///
    /// Where the folder of what was claimed can't be read.
    fn next_claimed(&mut self, from: u64) -> Result<Option<u64>, DiskError>
        ensures did { IfOk result (λ found. Did calls (Next from found ∷ []) self.old self.new) }
        ensures none { OnErr result (calls self.new ≡ calls self.old) };

    /// Makes a new file with these bytes in the place of the one of this name.
    ///
    /// # Errors
    ///
    /// Where a growth was refused, or the file can't be written; it may have any bytes then.
    fn write(&mut self, name: Name, bytes: &[u8]) -> Result<(), DiskError>
        ensures did { OnOk result (Did calls (Write name bytes.now ∷ []) self.old self.new) }
        ensures began { Began calls (Write name bytes.now ∷ []) self.old self.new };

    /// Brings the bytes of a file to the disk.
    ///
    /// # Errors
    ///
    /// Where the disk did not tell that they are on it.
    fn sync_file(&mut self, name: Name) -> Result<(), DiskError>
        ensures did { OnOk result (Did calls (SyncFile name ∷ []) self.old self.new) }
        ensures began { Began calls (SyncFile name ∷ []) self.old self.new };

    /// Gives a file another name.
    ///
    /// # Errors
    ///
    /// Where that was refused.
    fn rename(&mut self, from: Name, to: Name) -> Result<(), DiskError>
        ensures did { OnOk result (Did calls (Rename from to ∷ []) self.old self.new) }
        ensures began { Began calls (Rename from to ∷ []) self.old self.new };

    /// Gives a file a second name.
    ///
    /// # Errors
    ///
    /// Where that was refused: it has none then.
    fn link(&mut self, from: Name, to: Name) -> Result<(), DiskError>
        ensures did { OnOk result (Did calls (Link from to ∷ []) self.old self.new) }
        ensures none { OnErr result (calls self.new ≡ calls self.old) };

    /// Removes a name, if it is there.
    ///
    /// # Errors
    ///
    /// Where that was refused: it stays then.
    fn remove(&mut self, name: Name) -> Result<(), DiskError>
        ensures did { OnOk result (Did calls (Remove name ∷ []) self.old self.new) }
        ensures none { OnErr result (calls self.new ≡ calls self.old) };

    /// Brings the names of a folder to the disk.
    ///
    /// # Errors
    ///
    /// Where the disk did not tell that they are on it.
    fn sync_folder(&mut self, folder: Folder) -> Result<(), DiskError>
        ensures did { OnOk result (Did calls (SyncFolder folder ∷ []) self.old self.new) }
        ensures began { Began calls (SyncFolder folder ∷ []) self.old self.new };
}
