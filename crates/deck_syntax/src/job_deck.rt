//! A job as it is to be loaded.

use crate::job_limits::JobLimits;
use mon_text::{Lines, Listed, Name};

/// A unit that a job's card ties to a data set. Whether there is such a unit, and whether it is tied already, is tried where
/// the job is loaded.
#[derive(Drop)]
pub struct UnitCard {
    pub unit: u64,
    pub set: Name,
}

/// The unit cards of a job, in order.
pub type UnitCards = Listed<UnitCard>;

/// A job as it is to be loaded: its number, the name of its account, its limits, its unit cards, and the lines of its program
/// and its data.
#[derive(Drop)]
pub struct JobDeck {
    pub number: u64,
    pub account: Name,
    pub limits: JobLimits,
    pub ties: UnitCards,
    pub lines: Lines,
}
