//! Which names of a box are claimed.
ghost use Rattle.std.specs.Prelude.{◌≡◌, ◌⊎◌, [], map, IfOk, OnOk};
ghost use Rattle.ledger_boxes.specs.Sights.{seen_entry};
ghost use Rattle.ledger_boxes.specs.Listing.{is_due, kept_due, ListsFrom};

use crate::boxes::Boxes;
use crate::look::Entry;
use crate::serving::is_folder;
use ledger_disk::DiskError;
use ledger_turns::keep_first;
use site_plan::is_claimed;
use std::alloc::{AllocError, Global};

/// The first so many names in the box of this place that are to be claimed, in the order of their bytes; so many names of it are looked
/// at, and what is behind these waits. Of a box with any number of names no more than these are kept in memory.
///
/// # Errors
///
/// Where a growth was refused, or the box can't be read.
#[tactic(auto, using(crate::proofs::Listed::none_met, crate::proofs::Listed::one_met, crate::proofs::Listed::lists_all))]
pub fn first_in_box<B: Boxes>(
    alloc: Global,
    boxes: &mut B,
    place: usize,
    looks: u64,
    most: usize,
) -> Result<Vec<Vec<u8>>, DiskError>
    ensures { IfOk result (λ names. ListsFrom B.seen place looks most (map (λ name. name.items) names.items) boxes.old boxes.new) }
{
    let mut names = Vec::new(alloc);
    for _ in 0..looks {
        match boxes.next_entry(place)? {
            Some(entry) => keep_due(&mut names, most, entry)?,
            None => return Ok(names),
        }
    }
    Ok(names)
}

/// The same, where a box that can't be read has no names: so it costs its user alone.
///
/// # Errors
///
/// Where a growth was refused.
pub fn names_in_box<B: Boxes>(
    alloc: Global,
    boxes: &mut B,
    place: usize,
    looks: u64,
    most: usize,
) -> Result<Vec<Vec<u8>>, AllocError>
    ensures { IfOk result (λ names. ListsFrom B.seen place looks most (map (λ name. name.items) names.items) boxes.old boxes.new ⊎ (names.items ≡ [])) }
{
    match first_in_box(alloc, boxes, place, looks, most) {
        Ok(names) => Ok(names),
        Err(DiskError::Memory) => Err(AllocError),
        Err(_) => Ok(Vec::new(alloc)),
    }
}

// Keeps a name that is to be claimed.
fn keep_due(names: &mut Vec<Vec<u8>>, most: usize, entry: Entry) -> Result<(), AllocError>
    ensures { OnOk result (map (λ name. name.items) names.new.items ≡ kept_due most (map (λ name. name.items) names.old.items) (seen_entry entry)) }
{
    if is_due(&entry) {
        keep_first(names, most, entry.name)
    } else {
        Ok(())
    }
}

fn is_due(entry: &Entry) -> bool
    ensures { result ≡ is_due (seen_entry entry.now) }
{
    is_claimed(&entry.name) && !is_folder(entry.kind)
}
