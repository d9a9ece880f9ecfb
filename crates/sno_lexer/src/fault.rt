//! Why a text has no tokens.

/// A fault of the token stage. Where a token has two of them, the one that stands first here counts.
#[derive(Clone, Copy)]
pub enum FaultKind {
    /// A literal that is not closed, or an integer above 9,223,372,036,854,775,807.
    BadConstant,
    /// A character that begins no token, or a literal or label with a character outside ASCII 32 to 126.
    Foreign,
    /// The 101st open parenthesis or angular bracket, or the 1,001st token.
    TooMany,
}

/// The first fault of a text, and the offset of the character where the token begins that has it.
#[derive(Clone, Copy)]
pub struct LexFault {
    /// Counted from 0, from the beginning of the text.
    pub offset: usize,
    pub kind: FaultKind,
}
