//! What is kept of a split.

use crate::cards::Owners;
use crate::deck::Whole;
use crate::record::{Record, SetNote, TextNote};
use deck_syntax::Front;
use parts::Split;
use std::alloc::{AllocError, Global};

/// The record of a deck, taken apart, whose front was read, by a split.
///
/// # Errors
///
/// Where a growth was refused.
pub fn record_of(
    alloc: Global,
    front: &Front,
    whole: &Whole,
    split: &Split,
) -> Result<Record, AllocError> {
    let mut record = Record::of_one(alloc);
    let mut owners = Owners::of(alloc, &front.accounts, &front.catalogue)?;
    for (place, text) in whole.texts.iter().enumerate() {
        let counted = owners.follow(alloc, &text.text)?;
        let part = split.of_text(place as u64);
        record.parts = record.parts.max(part.saturating_add(1));
        record.texts.push(TextNote {
            part,
            commands: counted.commands,
            jobs: counted.jobs,
        })?;
    }
    put_sets(&mut record, split, &owners)?;
    Ok(record)
}

fn put_sets(record: &mut Record, split: &Split, owners: &Owners<'_>) -> Result<(), AllocError> {
    for (name, _) in owners.owners.iter() {
        let part = split.of_name(name);
        record.sets.push(SetNote {
            part,
            name: name.copy(),
        })?;
    }
    Ok(())
}
