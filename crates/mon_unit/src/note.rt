//! What is noted of a job: what it was denied, and where there was no room.

use interaction::Reason;
use mon_text::{Listed, Name};

/// What was asked.
#[derive(Clone, Copy)]
pub enum NoteAct {
    Read,
    Write,
    Endfile,
    Rewind,
}

// What a statement attempts on a unit.
#[derive(Clone, Copy)]
pub(crate) struct Attempt {
    pub statement: u64,
    pub act: NoteAct,
    pub unit: u64,
}

/// What it was asked of.
#[derive(Drop)]
pub enum NoteTarget {
    /// The data set of this name.
    Set(Name),
    /// The unit of this number, which is tied to no data set.
    Unit(u64),
}

/// Why it was not done.
#[derive(Drop)]
pub enum Why {
    /// It was denied.
    Denied(Reason),
    /// The data set had no room for a further record.
    Full,
}

/// A request that was not done.
#[derive(Drop)]
pub struct Note {
    /// The number of the statement that asked.
    pub statement: u64,
    pub act: NoteAct,
    pub target: NoteTarget,
    pub why: Why,
}

/// Notes, in order.
pub type Notes = Listed<Note>;
