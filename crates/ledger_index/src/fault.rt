//! Why a checkpoint is refused.

/// Why a checkpoint is refused. Whichever it is: the records are followed from the first.
#[derive(Clone, Copy)]
pub enum CheckpointFault {
    /// It is not the text that the ledger or the index names: it was changed, or cut off.
    Changed,
    /// It is that text, but none of a checkpoint.
    Broken,
    /// It stands behind other commits.
    OtherChain,
}
