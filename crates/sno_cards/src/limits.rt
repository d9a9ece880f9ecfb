//! The limits of a job.

/// How much a job may do: each limit is from 1 to 10,000,000.
#[derive(Clone, Copy)]
pub struct Limits {
    /// How many of its statements may begin.
    pub statements: u64,
    /// How many steps each of its matches may take.
    pub steps: u64,
}
