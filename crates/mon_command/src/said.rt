//! What a command was answered, without what it is shown.

use crate::reply::Reply;

/// What a command was answered: a reply, or how much it was shown.
#[derive(Drop)]
pub enum Said {
    /// One line: done, denied or refused.
    Told(Reply),
    /// So many records.
    Records(u64),
    /// A permission list of so many entries.
    Entries(u64),
    /// So many names.
    Names(u64),
}
