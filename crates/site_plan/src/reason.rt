//! Why a claimed text does not run.
use preflight::{Limit, Refusal};

/// Why a claimed text does not run.
#[derive(Clone, Copy)]
pub enum Reason {
    /// What was claimed is no file, or not of the box's user alone.
    NotOwn,
    /// It has more bytes than may be handed in.
    TooLong,
    /// It may not be read.
    NotReadable,
    /// A line of it is refused.
    Line(Refusal),
    /// With it the account would break this limit: it would come to so much, of so much.
    Limit(Limit, u128, u64),
    /// It was run alone, and memory ran out.
    Memory,
}
