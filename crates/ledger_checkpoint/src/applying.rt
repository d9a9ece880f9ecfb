//! A machine takes the data sets of a checkpoint, those of all entries of an index or of some, each as a change of its own.
ghost use Rattle.std.specs.Prelude.{◌≡◌, ◌++◌, ◌∷◌, [], IfOk, OnOk};
ghost use Rattle.ledger_text.specs.Digests.{digest_of};
ghost use Rattle.ledger_index.specs.Index.{seen_entry, seen_entries, seen_head};
ghost use Rattle.ledger_checkpoint.specs.Checkpoints.{rest_of};
ghost use Rattle.ledger_checkpoint.specs.Taking.{HasTaken};

use crate::source::Source;
use ledger_disk::DiskError;
use ledger_index::{CheckpointFault, Entry, Head};
use ledger_run::{LedgerError, Machine};
use ledger_sets::rest_change;
use ledger_text::digest;
use mon_text::Stop;
use std::alloc::Global;

/// The machine takes the data sets of these entries, in their order.
///
/// # Errors
///
/// `Changed` where a piece has another digest than its entry says, or can't be read; `Broken` where it has that digest, but the machine does
/// not take it. `Memory` where a growth was refused.
pub fn take_sets<S: Source, M: Machine>(
    alloc: Global,
    source: &mut S,
    entries: &[Entry<'_>],
    machine: &mut M,
) -> Result<(), Stop<CheckpointFault>>
    ensures { OnOk result (HasTaken (seen_entries entries.now) (M.behind machine.old) (M.behind machine.new)) }
{
    for entry in entries {
        take_set(alloc, source, *entry, machine)?;
    }
    Ok(())
}

/// The machine takes what an index says besides its data sets.
///
/// # Errors
///
/// `Broken` where it does not take that. `Memory` where a growth was refused.
pub fn take_rest<M: Machine>(
    alloc: Global,
    head: Head<'_>,
    machine: &mut M,
) -> Result<(), Stop<CheckpointFault>>
    ensures { OnOk result (M.behind machine.new ≡ M.behind machine.old ++ rest_of (seen_head head.entry) ∷ []) }
{
    let rest = rest_change(alloc, head.jobs, head.tables)?;
    take(&rest, machine)
}

#[tactic(auto, using(crate::proofs::Taken::one_taken))]
fn take_set<S: Source, M: Machine>(
    alloc: Global,
    source: &mut S,
    entry: Entry<'_>,
    machine: &mut M,
) -> Result<(), Stop<CheckpointFault>>
    ensures { OnOk result (HasTaken (seen_entry entry.entry ∷ []) (M.behind machine.old) (M.behind machine.new)) }
{
    let piece = read_piece(alloc, source, entry)?;
    take(&piece, machine)
}

fn take<M: Machine>(change: &[u8], machine: &mut M) -> Result<(), Stop<CheckpointFault>>
    ensures { OnOk result (M.behind machine.new ≡ M.behind machine.old ++ change.now ∷ []) }
{
    match machine.apply(change) {
        Ok(()) => Ok(()),
        Err(LedgerError::Disk(DiskError::Memory)) => Err(Stop::Memory),
        Err(_) => Err(Stop::Refused(CheckpointFault::Broken)),
    }
}

// The piece of a data set, which has the digest that its entry says.
fn read_piece<S: Source>(
    alloc: Global,
    source: &mut S,
    entry: Entry<'_>,
) -> Result<Vec<u8>, Stop<CheckpointFault>>
    ensures { IfOk result (λ piece. digest_of piece.items ≡ entry.entry.digest.now) }
{
    match source.piece(alloc, entry.span.place, entry.span.size)? {
        Some(piece) => checked(alloc, piece, entry.digest),
        None => Err(Stop::Refused(CheckpointFault::Changed)),
    }
}

fn checked(alloc: Global, piece: Vec<u8>, sum: &[u8]) -> Result<Vec<u8>, Stop<CheckpointFault>>
    ensures { IfOk result (λ found. digest_of found.items ≡ sum.now) }
{
    let found = digest(alloc, &piece)?;
    if found.as_slice() == sum {
        Ok(piece)
    } else {
        Err(Stop::Refused(CheckpointFault::Changed))
    }
}
