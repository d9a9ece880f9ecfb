//! Labels, and which statement each stands before.
ghost use Rattle.std.specs.Prelude.{◌≡◌, ◌≤◌, ◌<◌, [], bytes_eq, length, position, option_map, slice_get, OnOk};
ghost use Rattle.std.specs.List.{position_or_len, before_first};
ghost use Rattle.std.specs.Map.{lookup};
ghost use Rattle.indexmap.specs.IndexMap.{insert_entry};
ghost use Rattle.mon_text.specs.Characters.{is_blank, is_letter_or_digit};
ghost use Rattle.sno_syntax.specs.Labels.{is_bad_label, is_end, is_kept, label_fault};

use indexmap::IndexMap;
use sno_cards::SyntaxCode;
use sno_text::Seed;
use std::alloc::{AllocError, Global};
use std::array;
use std::cell::Cell;
use std::marker::Model;

/// The labels of a program, each with the index of its statement, found by hash. Calls of functions look for few of them
/// again and again, so the place of the last one is tried first.
///
/// A contract sees them as the list of these pairs, in the order of the statements. No label is empty: a statement that
/// begins with a blank has none.
#[derive(Drop)]
pub struct Labels {
    by_text: IndexMap<Vec<u8>, usize, Seed>,
    // Where the label of each group was that was found last. A wrong place costs time and nothing else.
    recent: [Cell<usize>; 16],
}

impl Model for Labels {
    ghost use Rattle.std.specs.Prelude.{map};
    ghost use Rattle.sno_syntax.specs.Labels.{LabelList};

    ghost Value = { LabelList };

    ghost view = { λ l. map (λ e. (e.0.items, e.1)) l.by_text.entries };
}

/// The group of a label: by its length and its last character.
fn group_of(label: &[u8]) -> usize
    ensures { result < 16 }
{
    match label.last() {
        Some(last) => (label.len() % 16 + 3 * usize::from(*last)) % 16,
        None => 0,
    }
}

#[tactic(auto, using(crate::proofs::Tables::tables))]
impl Labels {
    /// No labels. They are found by a hash of this seed.
    pub fn new(alloc: Global, seed: Seed) -> Labels
        ensures { result ≡ [] }
    {
        Labels {
            by_text: IndexMap::with_hasher(alloc, seed),
            recent: array::from_fn(|_| Cell::new(0)),
        }
    }

    /// The seed of the hash by which they are found.
    pub fn seed(&self) -> Seed {
        *self.by_text.hasher()
    }

    /// The same by hash. The place is kept for labels like it.
    #[inline(never)]
    fn find_elsewhere(&self, label: &[u8]) -> Option<usize>
        ensures { result ≡ lookup (bytes_eq label.now) self.now }
    {
        match self.by_text.get_full(label) {
            Some((index, _, statement)) => {
                self.recent[group_of(label)].set(index);
                Some(*statement)
            }
            None => None,
        }
    }

    /// The index of the statement that this label stands before, counted from 0. It takes no memory.
    pub fn find(&self, label: &[u8]) -> Option<usize>
        ensures { result ≡ lookup (bytes_eq label.now) self.now }
    {
        let hint = self.recent[group_of(label)].get();
        match self.by_text.get_index(hint) {
            Some((found, statement)) => {
                if found.as_slice() == label {
                    Some(*statement)
                } else {
                    self.find_elsewhere(label)
                }
            }
            None => self.find_elsewhere(label),
        }
    }

    /// A label with the index of its statement, by its own index: the labels are counted from 0, in the order of the
    /// statements.
    pub fn entry(&self, index: usize) -> Option<(&[u8], usize)>
        ensures { option_map (λ e. (e.0.now, e.1)) result ≡ slice_get self.now index }
    {
        match self.by_text.get_index(index) {
            Some((label, statement)) => Some((label.as_slice(), *statement)),
            None => None,
        }
    }

    /// Puts a label before a statement.
    ///
    /// # Errors
    ///
    /// Where a growth was refused.
    pub fn insert(
        &mut self,
        alloc: Global,
        label: &[u8],
        statement: usize,
    ) -> Result<(), AllocError>
        ensures { OnOk result (self.new ≡ insert_entry bytes_eq self.old label.now statement) }
    {
        let label = Vec::from_slice(alloc, label)?;
        self.by_text.insert(label, statement)?;
        Ok(())
    }
}

/// The label of a statement's text, which is empty where column 1 holds a blank.
pub fn label_in(text: &[u8]) -> &[u8]
    ensures { result.now ≡ before_first is_blank text.now }
{
    &text[..label_length(text)]
}

fn blank_in(text: &[u8]) -> Option<usize>
    ensures { result ≡ position is_blank text.now }
{
    text.iter().position(|byte| *byte == b' ')
}

// How many characters the label has.
pub(crate) fn label_length(text: &[u8]) -> usize
    ensures place { result ≡ position_or_len is_blank text.now }
    ensures within { result ≤ length text.now }
{
    blank_in(text).unwrap_or(text.len())
}

fn begins_label(byte: u8) -> bool
    ensures { result ≡ is_letter_or_digit byte }
{
    byte.is_ascii_alphanumeric()
}

pub(crate) fn is_end(label: &[u8]) -> bool
    ensures { result ≡ is_end label.now }
{
    label == b"END".as_slice()
}

// Whether the language keeps the label for itself.
fn is_kept(label: &[u8]) -> bool
    ensures { result ≡ is_kept label.now }
{
    label == b"RETURN".as_slice() || label == b"FRETURN".as_slice()
}

/// Whether a label begins with something else than a letter or digit.
pub(crate) fn is_bad_label(label: &[u8]) -> bool
    ensures { result ≡ is_bad_label label.now }
{
    match label {
        [] => false,
        [first, ..] => !begins_label(*first),
    }
}

/// Why a statement may not have this label, where these are defined before it.
pub(crate) fn label_fault(labels: &Labels, label: &[u8]) -> Option<SyntaxCode>
    ensures { result ≡ label_fault labels.now label.now }
{
    match label.first() {
        None => None,
        Some(first) if !begins_label(*first) => Some(SyntaxCode::Unexpected),
        Some(_) if is_end(label) => Some(SyntaxCode::BadEnd),
        Some(_) if is_kept(label) || labels.find(label).is_some() => Some(SyntaxCode::LabelTaken),
        Some(_) => None,
    }
}
