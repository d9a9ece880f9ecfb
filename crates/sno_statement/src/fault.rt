//! What is wrong with the tokens of a statement.

/// Why a token does not fit.
#[derive(Clone, Copy)]
pub enum FaultKind {
    /// It would be taken with other blanks round it.
    MissingBlank,
    /// It does not fit, whatever blanks stand round it; or the tokens end too early.
    Unfit,
    /// A variable is needed where it stands, and what begins there is none.
    NoVariable,
}

/// The leftmost fault of a statement.
#[derive(Clone, Copy)]
pub struct Fault {
    /// The index of the token, or the number of tokens where they end too early.
    pub at: usize,
    pub kind: FaultKind,
}
