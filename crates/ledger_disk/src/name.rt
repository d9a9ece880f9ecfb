//! The names that a ledger is made of. How they are spelt as paths is the matter of the disk over the system's files alone.

/// The folders.
#[derive(Clone, Copy)]
pub enum Folder {
    /// The commits, and what is to be one.
    Ledger,
    /// What users dropped.
    Boxes,
    /// What was claimed.
    Taken,
    /// The answers, and what is to be one.
    Out,
}

/// The names.
#[derive(Clone, Copy, PartialEq, Eq)]
pub enum Name {
    /// A commit, by its number, counted from 0.
    Commit(u64),
    /// What is to be the next commit.
    Draft,
    /// A file in a box, by its place among those that a run found.
    Dropped(u64),
    /// A claimed file, by its number.
    Claimed(u64),
    /// The answer to the text of this number.
    Answer(u64),
    /// What is to be an answer.
    Unfinished,
}
