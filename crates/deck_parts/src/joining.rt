//! What the parts of a deck gave, put together as what the whole deck gives.

use crate::audit::STOPPED;
use crate::record::Record;
use mon_text::Name;
use parts::{Part, join_audits, join_parts};
use std::alloc::{AllocError, Global};

/// The output of the whole deck, by those of its parts.
///
/// # Errors
///
/// Where a growth was refused.
pub fn joined_output(
    alloc: Global,
    record: &Record,
    parts: &[Part],
) -> Result<Vec<u8>, AllocError> {
    let split = record.split(alloc)?;
    let numbers = numbers_of(alloc, record)?;
    let names = names_of(alloc, record)?;
    join_parts(alloc, &split, parts, &numbers, &names)
}

/// The audit of the whole deck, by those of its parts.
///
/// # Errors
///
/// Where a growth was refused.
pub fn joined_audit(alloc: Global, record: &Record, parts: &[Part]) -> Result<Vec<u8>, AllocError> {
    let split = record.split(alloc)?;
    let numbers = numbers_of(alloc, record)?;
    let mut audit = join_audits(alloc, &split, parts, &numbers)?;
    audit.extend_from_slice(STOPPED)?;
    Ok(audit)
}

// The places of the texts.
fn numbers_of(alloc: Global, record: &Record) -> Result<Vec<u64>, AllocError> {
    let mut numbers = Vec::new(alloc);
    for place in 0..record.texts.len() {
        numbers.push(place as u64)?;
    }
    Ok(numbers)
}

// The data sets that are there in the end, in their order.
fn names_of(alloc: Global, record: &Record) -> Result<Vec<Name>, AllocError> {
    let mut names = Vec::new(alloc);
    for set in &record.sets {
        names.push(set.name.copy())?;
    }
    Ok(names)
}
