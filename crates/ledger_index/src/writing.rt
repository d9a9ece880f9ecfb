//! An index is printed.
ghost use Rattle.std.specs.Prelude.{◌≡◌, ◌∷◌, map, IfOk};
ghost use Rattle.ledger_text.specs.Text.{commit_text};
ghost use Rattle.ledger_index.specs.Index.{seen_entry, seen_head, entry_text, head_text};

use crate::{Entry, Head};
use itoa::Buffer;
use ledger_text::commit_text;
use std::alloc::{AllocError, Global};

/// What is printed of a data set.
///
/// # Errors
///
/// Where a growth was refused.
pub fn entry_text<'a>(alloc: Global, entry: Entry<'a>) -> Result<Vec<u8>, AllocError>
    ensures { IfOk result (λ text. text.items ≡ entry_text (seen_entry entry.entry)) }
{
    let mut counts = Buffer::new();
    let mut places = Buffer::new();
    let mut sizes = Buffer::new();
    let count = counts.format(entry.span.count).as_bytes();
    let place = places.format(entry.span.place).as_bytes();
    let size = sizes.format(entry.span.size).as_bytes();
    commit_text(
        alloc,
        &[
            entry.name,
            entry.owner,
            entry.group,
            entry.mode,
            entry.list,
            count,
            place,
            size,
            entry.digest,
        ],
    )
}

fn head_text<'a>(alloc: Global, head: Head<'a>) -> Result<Vec<u8>, AllocError>
    ensures { IfOk result (λ text. text.items ≡ head_text (seen_head head.entry)) }
{
    let mut counts = Buffer::new();
    let mut numbers = Buffer::new();
    let count = counts.format(head.count).as_bytes();
    let jobs = numbers.format(head.jobs).as_bytes();
    commit_text(alloc, &[count, head.last, jobs, head.course, head.tables])
}

/// An index of which these are printed of its data sets.
///
/// # Errors
///
/// Where a growth was refused.
pub fn index_text(alloc: Global, head: Head<'_>, entries: &[Vec<u8>]) -> Result<Vec<u8>, AllocError>
    ensures { IfOk result (λ text. text.items ≡ commit_text (head_text (seen_head head.entry) ∷ map (λ entry. entry.items) entries.now)) }
{
    let first = head_text(alloc, head)?;
    let mut fields = Vec::new(alloc);
    fields.push(first.as_slice())?;
    for entry in entries {
        fields.push(entry.as_slice())?;
    }
    commit_text(alloc, &fields)
}
