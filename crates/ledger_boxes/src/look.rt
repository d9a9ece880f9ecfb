//! What is seen under a name.

/// What stands there.
#[derive(Clone, Copy)]
pub enum Kind {
    /// A regular file.
    File,
    /// A folder.
    Folder,
    /// A link, a device, a FIFO or a socket.
    Other,
}

/// What was seen of a claimed file.
#[derive(Clone, Copy)]
pub struct Look {
    /// What it is.
    pub kind: Kind,
    /// The user of the system whose it is.
    pub owner: u64,
    /// How many names it has.
    pub links: u64,
    /// How many bytes it has.
    pub size: u64,
}

/// What was seen of a box.
#[derive(Clone, Copy)]
pub struct BoxLook {
    /// What it is.
    pub kind: Kind,
    /// The user of the system whose it is.
    pub owner: u64,
    /// Whether users who are neither its owner nor of its group may write there.
    pub is_open: bool,
    /// Whether names can be taken out of it by their owners alone.
    pub is_sticky: bool,
}

/// Why a box is passed over.
#[derive(Clone, Copy)]
pub enum BoxFault {
    /// It is not there.
    Missing,
    /// It is no folder.
    NoFolder,
    /// It is not the operator's; nor, where that is root, its user's.
    NotOwn,
    /// Others may write there.
    Open,
    /// The operator can take no name out of it.
    Sticky,
}

/// A name in a box.
#[derive(Drop)]
pub struct Entry {
    /// The name.
    pub name: Vec<u8>,
    /// What stands there.
    pub kind: Kind,
}
