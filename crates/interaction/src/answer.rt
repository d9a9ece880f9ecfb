//! Answers and denials.
ghost use Rattle.std.specs.Prelude.{◌≡◌};

use mon_acl::Tag;
use mon_text::{Line, Name};

/// Why something was denied (own).
#[derive(Drop)]
pub enum Reason {
    /// By the entry of the data set's permission list that has this type and this qualifier.
    By(Tag, Option<Name>),
    /// There is no data set of the name.
    NoSet,
    /// The account does not own the data set.
    NotOwner,
    /// The unit is not tied to anything.
    NoUnit,
    /// The unit is the deck's data, which can only be read.
    InStream,
    /// The unit is the spool, which can only be written.
    SpoolUnit,
    /// The data set is of mode APPEND, which can only be added to.
    Mode,
}

/// What is answered to a request for a record.
#[derive(Drop)]
pub enum Answer {
    /// It is done.
    Done,
    /// The record that was read.
    Got(Line),
    /// There is no further record.
    EndOfFile,
    /// It is denied, and nothing has changed.
    Denied(Reason),
    /// There is no room for a further record, and nothing has changed.
    Full,
}

impl Reason {
    /// The same reason once more.
    pub fn copy(&self) -> Reason
        ensures { result ≡ self.now }
    {
        match self {
            Reason::By(tag, Some(name)) => Reason::By(*tag, Some(name.copy())),
            Reason::By(tag, None) => Reason::By(*tag, None),
            Reason::NoSet => Reason::NoSet,
            Reason::NotOwner => Reason::NotOwner,
            Reason::NoUnit => Reason::NoUnit,
            Reason::InStream => Reason::InStream,
            Reason::SpoolUnit => Reason::SpoolUnit,
            Reason::Mode => Reason::Mode,
        }
    }
}
