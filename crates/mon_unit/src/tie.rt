//! What a unit is tied to.

use mon_text::Name;

/// What a unit is tied to.
#[derive(Drop)]
pub enum Target {
    /// To nothing.
    Untied,
    /// The deck's own data, which can only be read.
    Data,
    /// The spool, which can only be written.
    Spool,
    /// The data set of this name, whichever that is when it is asked for.
    Set(Name),
}

/// What a unit is tied to, and where its next record is: so many records stand before it.
#[derive(Drop)]
pub struct Tie {
    pub target: Target,
    pub position: u64,
}
