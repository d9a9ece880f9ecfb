//! The calls that were made on a disk, without their bytes.

use crate::{Folder, Identity, Name};

/// A call that was made.
#[derive(Clone, Copy)]
pub enum Event {
    /// A new file took the place of the one of this name.
    Wrote(Name),
    /// The bytes of a file were brought to the disk.
    SyncedFile(Name),
    /// A file got another name.
    Renamed(Name, Name),
    /// A file got a second name.
    Linked(Name, Name),
    /// A name was removed.
    Removed(Name),
    /// The names of a folder were brought to the disk.
    SyncedFolder(Folder),
    /// A file was read.
    Found(Name),
    /// No file was found.
    Missed(Name),
    /// Which file a name has was seen.
    Looked(Name, Identity),
    /// That a name has none was seen.
    Unseen(Name),
    /// From the first number on, the least under which a claimed file stands was seen to be the second.
    Next(u64, u64),
    /// That no claimed file stands from this number on was seen.
    NoNext(u64),
}
