//! What was seen of boxes, without its bytes.

use crate::look::{Kind, Look};

/// What was seen.
#[derive(Clone, Copy)]
pub enum Glimpse {
    /// In the box of this place a name, under which this stands.
    Name(usize, Kind),
    /// No name any more.
    End(usize),
    /// Under this number this stands.
    Stands(u64, Look),
    /// Nothing does.
    Lacks(u64),
    /// It was read.
    Bytes(u64),
    /// It could not be read.
    Closed(u64),
}
