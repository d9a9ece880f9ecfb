//! Texts whose characters know where they stand.
ghost use Rattle.std.specs.Prelude.{◌≡◌, ◌==◌, ◌+◌, ◌<◌, ◌≤◌, ◌^◌, ◌++◌, [], length, slice_get, Some, OnOk};
ghost use Rattle.sno_cards.specs.Statements.{placed_on};
ghost use Rattle.sno_cards.specs.Texts.{text_of};
ghost use Rattle.sno_cards.specs.inner.Parts.{places_of};
ghost use Rattle.sno_cards.specs.inner.Segments.{AreAscending, nowhere, moved, place_by};

use crate::refusal::Place;
use std::alloc::{AllocError, Global};
use std::marker::Model;

/// No place at all: cards and columns are counted from 1.
const NOWHERE: Place = Place { card: 0, column: 0 };

/// Where characters stand that follow on one another: the first of them has this offset in the text, and stands at this
/// place. Columns go up by one with the offset.
#[derive(Clone, Copy)]
pub(crate) struct Segment {
    offset: usize,
    place: Place,
}

// Where the character at an offset stands, if it belongs to this segment.
fn moved(segment: Segment, offset: usize) -> Place
    ensures { result ≡ moved segment offset }
{
    let further = offset.saturating_sub(segment.offset) as u64;
    Place {
        card: segment.place.card,
        column: segment.place.column.saturating_add(further),
    }
}

// The place that the last segment gives which begins at an offset or before it, found by halving.
fn place_by(segments: &[Segment], offset: usize) -> Place
    requires { AreAscending segments.now }
    ensures { result ≡ place_by nowhere segments.now offset }
{
    let mut rest = segments;
    while rest.len() > 1 {
        let (before, behind) = rest.split_at(rest.len() / 2);
        rest = if behind[0].offset <= offset {
            behind
        } else {
            before
        };
    }
    match rest {
        [segment] if segment.offset <= offset => moved(*segment, offset),
        _ => NOWHERE,
    }
}

/// The text of a statement, or of the rest of the END line.
///
/// A contract sees it as the list of its characters with their places. Kept are the characters and the segments that
/// they stand in, of which a card has one or two.
#[derive(Drop)]
pub struct StatementText {
    text: Vec<u8>,
    segments: Vec<Segment>,
}

impl Model for StatementText {
    ghost use Rattle.std.specs.Prelude.{◌≡◌, List, length, true};
    ghost use Rattle.sno_cards.specs.Texts.{Placed};
    ghost use Rattle.sno_cards.specs.inner.Segments.{placed_by, ascend};

    ghost Value = { List Placed };

    ghost view = { λ s. placed_by s.segments.items 0 s.text.items };

    ghost invariant = { λ s. ascend 0 s.segments.items (length s.text.items) ≡ true };
}

#[tactic(auto, using(crate::proofs::Placing::placing))]
impl StatementText {
    /// No character.
    pub(crate) fn new(alloc: Global) -> StatementText
        ensures { result ≡ [] }
    {
        StatementText {
            text: Vec::new(alloc),
            segments: Vec::new(alloc),
        }
    }

    /// Appends characters that stand on a card from a column on.
    ///
    /// # Errors
    ///
    /// Where a growth was refused.
    pub(crate) fn append(&mut self, card: u64, column: u64, text: &[u8]) -> Result<(), AllocError>
        requires { column + length text.now < 2 ^ 64 }
        ensures { OnOk result (self.new ≡ self.old ++ placed_on card column text.now) }
    {
        if text.is_empty() {
            return Ok(());
        }
        let place = Place { card, column };
        let offset = self.text.len();
        self.segments.push(Segment { offset, place })?;
        self.text.extend_from_slice(text)
    }

    /// The characters, without their places.
    pub fn as_bytes(&self) -> &[u8]
        ensures { result.now ≡ text_of self.now }
    {
        &self.text
    }

    /// How many characters there are.
    pub fn len(&self) -> usize
        ensures { result ≡ length self.now }
    {
        self.text.len()
    }

    /// Whether there is no character.
    pub fn is_empty(&self) -> bool
        ensures { result ≡ (length self.now == 0) }
    {
        self.text.is_empty()
    }

    /// Where the character at an index stands, counted from 0. There must be one. It takes no memory, and its time
    /// grows with the logarithm of the number of cards that the text stands on.
    pub fn place(&self, index: usize) -> Place
        requires { index < length self.now }
        ensures { slice_get (places_of self.now) index ≡ Some result }
    {
        place_by(&self.segments, index)
    }
}
