//! What a turn did.

use crate::job_end::JobEnd;

/// What a turn of the job in a slot did.
#[derive(Drop)]
pub enum Turned {
    /// There was no job in the slot, or no such slot.
    Empty,
    /// The job goes on.
    Goes,
    /// The job has ended, and has left its slot.
    Ended(JobEnd),
}
