//! Which file a name has.

/// Which file a name has: names of the same identity have the same file.
#[derive(Clone, Copy)]
pub struct Identity {
    /// The device that the file is on.
    pub device: u64,
    /// Its number there.
    pub inode: u64,
}
