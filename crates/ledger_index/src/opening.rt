//! An index is opened: it has to be the one that the ledger names, of the same commits.
ghost use Rattle.mon_text.specs.Stops.{Gives};
ghost use Rattle.ledger_index.specs.Index.{seen_index};
ghost use Rattle.ledger_index.specs.Opening.{seen_sealed, opened, of_chain};

use crate::reading::index_of;
use crate::{CheckpointFault, Index};
use ledger_text::digest;
use mon_text::Stop;
use std::alloc::Global;

/// What the ledger says of a checkpoint.
#[derive(Clone, Copy)]
pub struct Sealed<'a> {
    /// So many commits stand before it.
    pub count: u64,
    /// The digest of the last of them.
    pub last: &'a [u8],
    /// The digest of the checkpoint's index, as the record `CHECKED` has it.
    pub digest: &'a [u8],
}

fn of_chain<'a>(sealed: Sealed<'_>, index: Index<'a>) -> Result<Index<'a>, Stop<CheckpointFault>>
    ensures { Gives seen_index result (of_chain (seen_sealed sealed.entry) (seen_index index.entry)) }
{
    if index.head.count == sealed.count && index.head.last == sealed.last {
        Ok(index)
    } else {
        Err(Stop::Refused(CheckpointFault::OtherChain))
    }
}

/// The index of a checkpoint that the ledger says stands.
///
/// # Errors
///
/// Where its digest is another than the ledger says (`Changed`: it was changed or cut off); where it is the text that was meant but none
/// of an index (`Broken`), or one behind other commits (`OtherChain`). `Memory` where a growth was refused.
pub fn read_index<'a>(
    alloc: Global,
    sealed: Sealed<'_>,
    text: &'a [u8],
) -> Result<Index<'a>, Stop<CheckpointFault>>
    ensures { Gives seen_index result (opened (seen_sealed sealed.entry) text.now) }
{
    let found = digest(alloc, text)?;
    if found.as_slice() != sealed.digest {
        return Err(Stop::Refused(CheckpointFault::Changed));
    }
    match index_of(alloc, text)? {
        Some(index) => of_chain(sealed, index),
        None => Err(Stop::Refused(CheckpointFault::Broken)),
    }
}
