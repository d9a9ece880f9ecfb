//! An index is read.
ghost use Rattle.std.specs.Prelude.{◌≡◌, map, option_map, IfOk};
ghost use Rattle.ledger_text.specs.Records.{count_of};
ghost use Rattle.ledger_index.specs.Index.{seen_entry, seen_head, seen_index, seen_entries};
ghost use Rattle.ledger_index.specs.Index.{span_in, entry_in, entry_of, entries_of, head_in, head_of, index_in, index_of};

use crate::{Entry, Head, Index, Span};
use ledger_text::read_commit;
use mon_text::read_count;
use std::alloc::{AllocError, Global};

pub(crate) fn read_number(text: &[u8]) -> Option<u64>
    ensures { result ≡ count_of text.now }
{
    match read_count(text) {
        Ok(count) => Some(count),
        Err(_) => None,
    }
}

fn span_in(count: &[u8], place: &[u8], size: &[u8]) -> Option<Span>
    ensures { result ≡ span_in count.now place.now size.now }
{
    let count = read_number(count)?;
    let place = read_number(place)?;
    let size = read_number(size)?;
    Some(Span { count, place, size })
}

fn entry_in<'a>(fields: &[&'a [u8]]) -> Option<Entry<'a>>
    ensures { option_map seen_entry result ≡ entry_in (map (λ field. field.now) fields.now) }
{
    match fields {
        [name, owner, group, mode, list, count, place, size, digest] => {
            let span = span_in(count, place, size)?;
            Some(Entry {
                name,
                owner,
                group,
                mode,
                list,
                span,
                digest,
            })
        }
        _ => None,
    }
}

fn entry_of<'a>(alloc: Global, field: &'a [u8]) -> Result<Option<Entry<'a>>, AllocError>
    ensures { IfOk result (λ found. option_map seen_entry found ≡ entry_of field.now) }
{
    match read_commit(alloc, field)? {
        Some(fields) => Ok(entry_in(&fields)),
        None => Ok(None),
    }
}

// The data sets, a field each.
fn entries_of<'a>(alloc: Global, fields: &[&'a [u8]]) -> Result<Option<Vec<Entry<'a>>>, AllocError>
    ensures { IfOk result (λ found. option_map (λ entries. seen_entries entries.items) found ≡ entries_of (map (λ field. field.now) fields.now)) }
{
    let mut entries = Vec::new(alloc);
    for field in fields {
        match entry_of(alloc, field)? {
            Some(entry) => entries.push(entry)?,
            None => return Ok(None),
        }
    }
    Ok(Some(entries))
}

fn head_in<'a>(fields: &[&'a [u8]]) -> Option<Head<'a>>
    ensures { option_map seen_head result ≡ head_in (map (λ field. field.now) fields.now) }
{
    match fields {
        [count, last, jobs, course, tables] => {
            let count = read_number(count)?;
            let jobs = read_number(jobs)?;
            Some(Head {
                count,
                last,
                jobs,
                course,
                tables,
            })
        }
        _ => None,
    }
}

fn head_of<'a>(alloc: Global, field: &'a [u8]) -> Result<Option<Head<'a>>, AllocError>
    ensures { IfOk result (λ found. option_map seen_head found ≡ head_of field.now) }
{
    match read_commit(alloc, field)? {
        Some(fields) => Ok(head_in(&fields)),
        None => Ok(None),
    }
}

fn index_in<'a>(alloc: Global, fields: &[&'a [u8]]) -> Result<Option<Index<'a>>, AllocError>
    ensures { IfOk result (λ found. option_map seen_index found ≡ index_in (map (λ field. field.now) fields.now)) }
{
    let [first, rest @ ..] = fields else {
        return Ok(None);
    };
    let Some(head) = head_of(alloc, first)? else {
        return Ok(None);
    };
    match entries_of(alloc, rest)? {
        Some(entries) => Ok(Some(Index { head, entries })),
        None => Ok(None),
    }
}

// The index that a text is of, if it is one.
pub(crate) fn index_of<'a>(alloc: Global, text: &'a [u8]) -> Result<Option<Index<'a>>, AllocError>
    ensures { IfOk result (λ found. option_map seen_index found ≡ index_of text.now) }
{
    match read_commit(alloc, text)? {
        Some(fields) => index_in(alloc, &fields),
        None => Ok(None),
    }
}
