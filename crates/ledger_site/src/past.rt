//! What the commits said, and what a site's state was behind some of them.
ghost use Rattle.std.specs.Prelude.{◌≡◌, Some, option_map, IfOk, OnOk};
ghost use Rattle.ledger_text.specs.Text.{commit_of};
ghost use Rattle.ledger_text.specs.Records.{seen};
ghost use Rattle.ledger_sets.specs.Seeing.{site_of};
ghost use Rattle.ledger_sets.specs.Applying.{no_site, after_change};
ghost use Rattle.ledger_site.specs.Past.{told, told_head, told_by, change_of, after_text, after_texts, runs_later, count_from};

use ledger_run::LedgerError;
use ledger_sets::{NoChange, State, apply_change};
use ledger_text::{Record, read_commit, read_record};
use mon_text::Stop;
use std::alloc::{AllocError, Global};

/// What a commit says.
#[derive(Clone, Copy)]
pub struct Said<'a> {
    /// When, in seconds since the beginning of 1970, UTC.
    pub time: u64,
    /// Its record.
    pub record: Record<'a>,
    /// What that changes.
    pub change: &'a [u8],
}

/// What a commit says; none where the text is none of a commit.
///
/// # Errors
///
/// Where a growth was refused.
pub fn read_said<'a>(alloc: Global, text: &'a [u8]) -> Result<Option<Said<'a>>, AllocError>
    ensures { IfOk result (λ found. option_map told found ≡ told_by text.now) }
{
    let Some(fields) = read_commit(alloc, text)? else {
        return Ok(None);
    };
    match fields.as_slice() {
        [_, head, change] => read_head(alloc, head, change),
        _ => Ok(None),
    }
}

fn read_head<'a>(
    alloc: Global,
    head: &'a [u8],
    change: &'a [u8],
) -> Result<Option<Said<'a>>, AllocError>
    ensures { IfOk result (λ found. option_map told found ≡ told_head change.now (commit_of head.now)) }
{
    let Some(fields) = read_commit(alloc, head)? else {
        return Ok(None);
    };
    match read_record(&fields) {
        Some(entry) => Ok(Some(Said {
            time: entry.time,
            record: entry.record,
            change,
        })),
        None => Ok(None),
    }
}

/// What a commit of a site says.
///
/// # Errors
///
/// Where a growth was refused, or the text is none of a commit (`Refused`).
pub fn said_in<'a>(alloc: Global, text: &'a [u8]) -> Result<Said<'a>, LedgerError>
    ensures { IfOk result (λ said. told_by text.now ≡ Some (told said)) }
{
    match read_said(alloc, text)? {
        Some(said) => Ok(said),
        None => Err(LedgerError::Refused),
    }
}

/// The change that a record makes, if it is one that makes one: a submission's run, or an act of the operator.
pub fn change_in<'a>(said: Said<'a>) -> Option<&'a [u8]>
    ensures { option_map (λ change. change.now) result ≡ change_of (seen said.entry.«record») said.entry.change.now }
{
    match said.record {
        Record::Ran(_, _) | Record::Edit(_, _) => Some(said.change),
        _ => None,
    }
}

/// The state of a site behind these commits.
///
/// # Errors
///
/// Where a growth was refused, or one of them is no commit of a site (`Refused`).
pub fn state_behind(alloc: Global, commits: &[Vec<u8>]) -> Result<State, LedgerError>
    ensures { IfOk result (λ state. after_texts (λ text. text.items) commits.now no_site ≡ Some (site_of state)) }
{
    let mut state = State::new(alloc);
    for text in commits {
        follow(alloc, text, &mut state)?;
    }
    Ok(state)
}

fn follow(alloc: Global, text: &[u8], state: &mut State) -> Result<(), LedgerError>
    ensures { OnOk result (after_text text.now (site_of state.old) ≡ Some (site_of state.new)) }
{
    let said = said_in(alloc, text)?;
    match change_in(said) {
        Some(change) => apply(alloc, change, state),
        None => Ok(()),
    }
}

fn apply(alloc: Global, change: &[u8], state: &mut State) -> Result<(), LedgerError>
    ensures { OnOk result (after_change change.now (site_of state.old) ≡ Some (site_of state.new)) }
{
    match apply_change(alloc, change, state) {
        Ok(()) => Ok(()),
        Err(stop) => Err(failed(stop)),
    }
}

fn failed(stop: Stop<NoChange>) -> LedgerError {
    match stop {
        Stop::Refused(_) => LedgerError::Refused,
        Stop::Memory => LedgerError::from(AllocError),
    }
}

/// How many commits stand before the first run of a submission with a larger number than this one: behind them is the state that the
/// submissions up to this number left.
///
/// # Errors
///
/// Where a growth was refused, or one of them is no commit (`Refused`).
pub fn count_behind(alloc: Global, commits: &[Vec<u8>], number: u64) -> Result<usize, LedgerError>
    ensures { IfOk result (λ count. count ≡ count_from (λ text. text.items) number 0 commits.now) }
{
    for place in 0..commits.len() {
        if runs_later(alloc, &commits[place], number)? {
            return Ok(place);
        }
    }
    Ok(commits.len())
}

fn runs_later(alloc: Global, text: &[u8], number: u64) -> Result<bool, LedgerError>
    ensures { IfOk result (λ later. later ≡ runs_later number (told_by text.now)) }
{
    let said = said_in(alloc, text)?;
    match said.record {
        Record::Ran(other, _) => Ok(other > number),
        _ => Ok(false),
    }
}
