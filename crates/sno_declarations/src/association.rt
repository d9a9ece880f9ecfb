//! What variables are associated with.

use crate::format::Format;

/// Where using a variable reads a record, and how many of its characters are kept.
#[derive(Clone, Copy)]
pub struct Input {
    pub unit: u64,
    pub most: u64,
}

/// Where an assignment writes records, and how the text is cut into them.
#[derive(Clone, Copy)]
pub struct Output {
    pub unit: u64,
    pub format: Format,
}
