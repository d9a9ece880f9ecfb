//! Why a text is no permission list.
use crate::entries::Tag;
use thiserror::Error;

/// Why a text is no permission list. A number is that of the entry, counted from 1.
#[derive(Clone, Copy, Debug, Error)]
pub enum AclError {
    /// The first field of the entry is no type. An entry of no text at all has no type either.
    #[error("A1 BAD TAG")]
    BadTag(u64),
    /// The qualifier is neither empty nor a name, or it is not empty where the type has none.
    #[error("A2 BAD QUALIFIER")]
    BadQualifier(u64),
    /// The permissions are not each of `r`, `w` and `x` at most once and `-`, or the number of fields is wrong.
    #[error("A3 BAD PERMS")]
    BadPerms(u64),
    /// There is no entry of this type: the owner's, the owning group's, or that of all others.
    #[error("A4 MISSING")]
    Missing(Tag),
    /// An entry before has the same type and qualifier.
    #[error("A5 TWICE")]
    Twice(u64),
    /// There are named entries and no mask.
    #[error("A6 NO MASK")]
    NoMask,
    /// It is the 101st named entry.
    #[error("A7 TOO MANY")]
    TooMany(u64),
}
