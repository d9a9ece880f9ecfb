//! The submissions that ran between two acts of the operator: they are one deck.
ghost use Rattle.std.specs.Prelude.{◌≡◌, ◌≤◌, ◌<◌, ◌^◌, ◌+◌, ◌++◌, ◌∷◌, [], false, map, length, IfOk, IfSome, IsNone, OnOk};
ghost use Rattle.ledger_text.specs.Records.{seen};
ghost use Rattle.ledger_sets.specs.Seeing.{site_of};
ghost use Rattle.ledger_site.specs.Stretching.{is_act, ends_at, first_behind, found_behind, span_from, seen_queue, queue_after, queue_from, queue, IsStretch};

use crate::past::{Said, said_in, state_behind};
use ledger_run::LedgerError;
use ledger_sets::State;
use ledger_text::Record;
use std::alloc::{AllocError, Global};
use std::collections::VecDeque;

/// The submissions that ran between two acts of the operator, and what they ran over.
#[derive(Drop)]
pub struct Stretch {
    /// The state before the first of them.
    pub state: State,
    /// These submissions as the ledger has them, the first of them first: the account, and behind it the lines.
    pub texts: Vec<Vec<u8>>,
}

// From which commit on, and before which.
#[derive(Clone, Copy)]
struct Span {
    first: usize,
    behind: usize,
    is_found: bool,
}

/// The stretch in which the submission of this number ran, if it did.
///
/// # Errors
///
/// Where a growth was refused, or one of these is no commit of a site (`Refused`).
pub fn stretch_of(
    alloc: Global,
    commits: &[Vec<u8>],
    number: u64,
) -> Result<Option<Stretch>, LedgerError>
    ensures found { IfOk result (λ found. IfSome found (λ stretch.
        IsStretch (λ text. text.items) commits.now number (site_of stretch.state) (map (λ text. text.items) stretch.texts.items))) }
    ensures none { IfOk result (λ found. IsNone found → (span_from (λ text. text.items) number 0 0 false commits.now).is_found ≡ false) }
{
    let span = span_of(alloc, commits, number)?;
    if !span.is_found {
        return Ok(None);
    }
    let state = state_behind(alloc, &commits[..span.first])?;
    let texts = texts_of(alloc, &commits[..span.behind], span.first)?;
    Ok(Some(Stretch { state, texts }))
}

fn span_of(alloc: Global, commits: &[Vec<u8>], number: u64) -> Result<Span, LedgerError>
    ensures is { IfOk result (λ span. span ≡ span_from (λ text. text.items) number 0 0 false commits.now) }
    ensures first { IfOk result (λ span. span.first ≤ length commits.now) }
    ensures behind { IfOk result (λ span. span.behind ≤ length commits.now) }
{
    let mut first = 0;
    let mut is_found = false;
    for place in 0..commits.len() {
        let said = said_in(alloc, &commits[place])?;
        if ends_at(is_found, said.record) {
            return Ok(Span {
                first,
                behind: place,
                is_found,
            });
        }
        first = first_behind(place, first, said.record);
        is_found = found_behind(number, is_found, said.record);
    }
    Ok(Span {
        first,
        behind: commits.len(),
        is_found,
    })
}

fn is_act(said: Record<'_>) -> bool
    ensures { result ≡ is_act (seen said.entry) }
{
    matches!(said, Record::Edit(_, _))
}

// Whether a stretch in which the submission was found ends at this record.
fn ends_at(is_found: bool, said: Record<'_>) -> bool
    ensures { result ≡ ends_at is_found (seen said.entry) }
{
    is_found && is_act(said)
}

// Where the stretch begins that goes on behind the record of this place.
fn first_behind(place: usize, first: usize, said: Record<'_>) -> usize
    requires { place + 1 < 2 ^ 64 }
    ensures is { result ≡ first_behind place first (seen said.entry) }
    ensures within { first ≤ place → result ≤ place + 1 }
{
    if is_act(said) { place + 1 } else { first }
}

// Whether the submission of this number ran so far.
fn found_behind(number: u64, is_found: bool, said: Record<'_>) -> bool
    ensures { result ≡ found_behind number is_found (seen said.entry) }
{
    match said {
        Record::Ran(ran, _) if ran == number => true,
        _ => is_found,
    }
}

// The submissions that ran in these commits, from this place on. The first submission that waits is the one that runs.
fn texts_of(alloc: Global, commits: &[Vec<u8>], first: usize) -> Result<Vec<Vec<u8>>, LedgerError>
    ensures { IfOk result (λ texts. map (λ text. text.items) texts.items ≡ (queue_from (λ text. text.items) first 0 commits.now (queue [] [])).ran) }
{
    let mut waiting = VecDeque::new(alloc);
    let mut ran = Vec::new(alloc);
    for place in 0..commits.len() {
        let said = said_in(alloc, &commits[place])?;
        take_text(alloc, said, first <= place, &mut waiting, &mut ran)?;
    }
    Ok(ran)
}

fn take_text<'a>(
    alloc: Global,
    said: Said<'a>,
    is_there: bool,
    waiting: &mut VecDeque<&'a [u8]>,
    ran: &mut Vec<Vec<u8>>,
) -> Result<(), AllocError>
    ensures { OnOk result (seen_queue waiting.new.items (map (λ text. text.items) ran.new.items)
        ≡ queue_after is_there (seen said.entry.«record») (seen_queue waiting.old.items (map (λ text. text.items) ran.old.items))) }
{
    match said.record {
        Record::Took(_, text) => {
            waiting.push_back(text)?;
            Ok(())
        }
        Record::Ran(_, _) => match waiting.pop_front() {
            Some(text) if is_there => add_text(alloc, text, ran),
            _ => Ok(()),
        },
        Record::Dropped(_, _, _) => {
            let _dropped = waiting.pop_front();
            Ok(())
        }
        _ => Ok(()),
    }
}

fn add_text(alloc: Global, text: &[u8], texts: &mut Vec<Vec<u8>>) -> Result<(), AllocError>
    ensures { OnOk result (map (λ text. text.items) texts.new.items ≡ map (λ text. text.items) texts.old.items ++ text.now ∷ []) }
{
    let text = text.to_vec(alloc)?;
    texts.push(text)?;
    Ok(())
}
