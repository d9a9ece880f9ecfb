//! A checkpoint is written: its pieces, and its index.
ghost use Rattle.std.specs.Prelude.{◌≡◌, ◌<◌, ◌+◌, ◌++◌, ◌∷◌, [], length, map, drop, IfOk, OnOk};
ghost use Rattle.ledger_text.specs.Text.{commit_text};
ghost use Rattle.ledger_index.specs.Index.{entry_text, index_text};
ghost use Rattle.ledger_sets.specs.Seeing.{site_of};
ghost use Rattle.ledger_checkpoint.specs.Checkpoints.{piece_of, entry_at, entries_from, index_for};
ghost use Rattle.ledger_checkpoint.specs.Writing.{texts_in, entry_texts};

use crate::pieces::{NotPut, Pieces};
use acl_text::put_short;
use ledger_index::{Entry, Head, Span, entry_text, index_text};
use ledger_sets::{State, Tables, whole_change};
use ledger_text::{commit_text, digest};
use mon_catalogue::{Catalogue, DataSet};
use mon_text::{Name, Stop};
use std::alloc::{AllocError, Global};

/// Where a checkpoint stands, and what else it has to say.
#[derive(Clone, Copy)]
pub struct Behind<'a> {
    /// So many commits stand before it.
    pub count: u64,
    /// The digest of the last of them.
    pub last: &'a [u8],
    /// The texts that wait and the answers that are owed, as whoever opens the ledger writes them.
    pub course: &'a [u8],
}

// What is written of a checkpoint.
#[derive(Drop)]
struct Written {
    // What its index says of each data set whose piece is put.
    entries: Vec<Vec<u8>>,
    // So many bytes these pieces have.
    size: u64,
}

/// The checkpoint of a state behind so many commits: its pieces are put, and its index is the result.
///
/// # Errors
///
/// Where a growth was refused, or a piece can't be put.
pub fn write_checkpoint<P: Pieces>(
    alloc: Global,
    behind: Behind<'_>,
    state: &State,
    pieces: &mut P,
) -> Result<Vec<u8>, Stop<NotPut>>
    ensures index { IfOk result (λ index. index.items
        ≡ index_text (index_for behind.entry.count behind.entry.last.now behind.entry.course.now (site_of state.now))) }
    ensures pieces { OnOk result (P.taken pieces.new ≡ P.taken pieces.old ++ map piece_of (site_of state.now).sets) }
{
    let entries = put_sets(alloc, &state.catalogue, pieces)?;
    let tables = tables_text(alloc, &state.tables)?;
    let head = Head {
        count: behind.count,
        last: behind.last,
        jobs: state.jobs,
        course: behind.course,
        tables: tables.as_slice(),
    };
    Ok(index_text(alloc, head, &entries)?)
}

fn tables_text(alloc: Global, tables: &Tables) -> Result<Vec<u8>, AllocError>
    ensures { IfOk result (λ text. text.items
        ≡ commit_text (tables.now.accounts.items ∷ tables.now.users.items ∷ tables.now.limits.items ∷ [])) }
{
    commit_text(
        alloc,
        &[
            tables.accounts.as_slice(),
            tables.users.as_slice(),
            tables.limits.as_slice(),
        ],
    )
}

// Puts the pieces of all data sets; what the index says of each.
#[tactic(auto, using(crate::proofs::Standing::no_pieces, crate::proofs::Standing::no_entries))]
fn put_sets<P: Pieces>(
    alloc: Global,
    sets: &Catalogue,
    pieces: &mut P,
) -> Result<Vec<Vec<u8>>, Stop<NotPut>>
    ensures entries { IfOk result (λ entries. texts_in entries.items ≡ entry_texts (entries_from 0 sets.now)) }
    ensures pieces { OnOk result (P.taken pieces.new ≡ P.taken pieces.old ++ map piece_of sets.now) }
{
    let mut written = Written {
        entries: Vec::new(alloc),
        size: 0,
    };
    for place in 0..sets.len() {
        put_at(alloc, sets, place, pieces, &mut written)?;
    }
    Ok(written.entries)
}

fn put_at<P: Pieces>(
    alloc: Global,
    sets: &Catalogue,
    place: usize,
    pieces: &mut P,
    written: &mut Written,
) -> Result<(), Stop<NotPut>>
    requires { place < length sets.now }
    ensures entries { OnOk result (texts_in written.new.entries.items ++ entry_texts (entries_from written.new.size (drop (place + 1) sets.now))
        ≡ texts_in written.old.entries.items ++ entry_texts (entries_from written.old.size (drop place sets.now))) }
    ensures pieces { OnOk result (P.taken pieces.new ++ map piece_of (drop (place + 1) sets.now) ≡ P.taken pieces.old ++ map piece_of (drop place sets.now)) }
{
    match sets.at(place) {
        Some((name, set)) => {
            put_set(alloc, name, set, pieces, written)?;
            Ok(())
        }
        None => Ok(()),
    }
}

// Puts the piece of a data set, and what the index says of it.
fn put_set<P: Pieces>(
    alloc: Global,
    name: &Name,
    set: &DataSet,
    pieces: &mut P,
    written: &mut Written,
) -> Result<(), Stop<NotPut>>
    ensures entries { OnOk result (texts_in written.new.entries.items
        ≡ texts_in written.old.entries.items ++ entry_text (entry_at written.old.size (name.now, set.now)) ∷ []) }
    ensures size { OnOk result (written.new.size ≡ written.old.size + length (piece_of (name.now, set.now))) }
    ensures pieces { OnOk result (P.taken pieces.new ≡ P.taken pieces.old ++ piece_of (name.now, set.now) ∷ []) }
{
    let piece = whole_change(alloc, name, set)?;
    let entry = set_entry(alloc, name, set, written.size, &piece)?;
    let Some(size) = written.size.checked_add(piece.len() as u64) else {
        return Err(Stop::Refused(NotPut));
    };
    pieces.put(&piece)?;
    match written.entries.push(entry) {
        Ok(()) => {
            written.size = size;
            Ok(())
        }
        Err(_) => Err(Stop::Memory),
    }
}

fn set_entry(
    alloc: Global,
    name: &Name,
    set: &DataSet,
    place: u64,
    piece: &[u8],
) -> Result<Vec<u8>, AllocError>
    requires { piece.now ≡ piece_of (name.now, set.now) }
    ensures { IfOk result (λ entry. entry.items ≡ entry_text (entry_at place (name.now, set.now))) }
{
    let mut list = Vec::new(alloc);
    put_short(&set.acl, &mut list)?;
    let sum = digest(alloc, piece)?;
    let span = Span {
        count: set.records.len(),
        place,
        size: piece.len() as u64,
    };
    entry_text(
        alloc,
        Entry {
            name: name.as_bytes(),
            owner: set.owner.as_bytes(),
            group: set.group.as_bytes(),
            mode: set.mode.word(),
            list: list.as_slice(),
            span,
            digest: sum.as_slice(),
        },
    )
}
