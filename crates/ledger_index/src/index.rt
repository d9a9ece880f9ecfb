//! What the index of a checkpoint says.

/// How many records a data set has, and where their lines stand among those of all data sets.
#[derive(Clone, Copy)]
pub struct Span {
    /// So many records.
    pub count: u64,
    /// So many bytes stand before their lines.
    pub place: u64,
    /// So many bytes are their lines.
    pub size: u64,
}

/// What an index says of a data set.
#[derive(Clone, Copy)]
pub struct Entry<'a> {
    /// Its name.
    pub name: &'a [u8],
    /// Its owner.
    pub owner: &'a [u8],
    /// Its group.
    pub group: &'a [u8],
    /// The word for its mode.
    pub mode: &'a [u8],
    /// Its permission list in short form.
    pub list: &'a [u8],
    /// Where its records stand.
    pub span: Span,
    /// The digest of their lines.
    pub digest: &'a [u8],
}

/// What an index says of the ledger.
#[derive(Clone, Copy)]
pub struct Head<'a> {
    /// So many commits stand before the checkpoint.
    pub count: u64,
    /// The digest of the last of them.
    pub last: &'a [u8],
    /// So many jobs ran.
    pub jobs: u64,
    /// The texts that wait and the answers that are owed, as whoever opens the ledger writes them.
    pub course: &'a [u8],
    /// The operator's tables, as a record has them.
    pub tables: &'a [u8],
}

/// The index of a checkpoint.
#[derive(Drop)]
pub struct Index<'a> {
    /// What it is a checkpoint of.
    pub head: Head<'a>,
    /// The data sets, in their order.
    pub entries: Vec<Entry<'a>>,
}
