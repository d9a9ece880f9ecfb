//! What a commit says of the texts, and its text.
ghost use Rattle.std.specs.Prelude.{◌≡◌, ◌<◌, ◌^◌, true, option_map, IfOk, IfSome};
ghost use Rattle.std.specs.List.{AllByRecursion};
ghost use Rattle.ledger_text.specs.Text.{commit_of};
ghost use Rattle.ledger_text.specs.Records.{seen, numbers_of};
ghost use Rattle.ledger_run.specs.Meaning.{event_of, event_in, event_behind};
ghost use Rattle.ledger_run.specs.Following.{seen_event, event_sent};
ghost use Rattle.ledger_run.specs.Senders.{sent_by, sent_head, sent_in};

use ledger_text::laws::{reads_back, reads_records};
use ledger_text::{Claimed, Entry, Record, commit_text, read_commit, read_record, record_text};
use std::alloc::{AllocError, Global};

// Lengths and numbers that are read as they were written are below this one.
const LIMIT: u64 = 1 << 63;

/// What a commit says of the texts.
#[derive(Clone, Copy)]
pub(crate) enum Event<'a> {
    /// A text was taken.
    Took(Claimed<'a>, &'a [u8]),
    /// A file was refused, with this reply.
    Refused(Claimed<'a>, &'a [u8]),
    /// The first text that waits ran: what it printed and changed.
    Ran(u64, &'a [u8], &'a [u8]),
    /// It was dropped, with this reply.
    Dropped(u64, &'a [u8]),
    /// The operator changed this.
    Edited(&'a [u8]),
    /// The answers so far are on the disk.
    Gave,
    /// Nothing of the texts.
    Noted,
}

// What a commit behind one of this digest says; none where it can't stand there.
pub(crate) fn read_event<'a>(
    alloc: Global,
    before: &[u8],
    text: &'a [u8],
) -> Result<Option<Event<'a>>, AllocError>
    ensures says { IfOk result (λ found. option_map seen_event found ≡ event_behind before.now (commit_of text.now)) }
    ensures sent { IfOk result (λ found. IfSome found (λ event. event_sent event ≡ sent_in (commit_of text.now))) }
{
    let Some(fields) = read_commit(alloc, text)? else {
        return Ok(None);
    };
    match fields.as_slice() {
        [named, head, change] if *named == before => read_head(alloc, head, change),
        _ => Ok(None),
    }
}

fn read_head<'a>(
    alloc: Global,
    head: &'a [u8],
    change: &'a [u8],
) -> Result<Option<Event<'a>>, AllocError>
    ensures says { IfOk result (λ found. option_map seen_event found ≡ event_in change.now (commit_of head.now)) }
    ensures sent { IfOk result (λ found. IfSome found (λ event. event_sent event ≡ sent_head (commit_of head.now))) }
{
    let Some(fields) = read_commit(alloc, head)? else {
        return Ok(None);
    };
    match read_record(&fields) {
        Some(entry) => Ok(said_event(entry.record, change)),
        None => Ok(None),
    }
}

// What a record says with this change.
pub(crate) fn said_event<'a>(said: Record<'a>, change: &'a [u8]) -> Option<Event<'a>>
    ensures says { option_map seen_event result ≡ event_of (seen said.entry) change.now }
    ensures sent { IfSome result (λ event. event_sent event ≡ sent_by (seen said.entry)) }
{
    match said {
        Record::Took(file, text) => Some(Event::Took(file, text)),
        Record::Refused(file, reply) => Some(Event::Refused(file, reply)),
        Record::Ran(number, printout) => Some(Event::Ran(number, printout, change)),
        Record::Dropped(number, _, reply) => Some(Event::Dropped(number, reply)),
        Record::Edit(_, _) => Some(Event::Edited(change)),
        Record::Gave(_, _) => Some(Event::Gave),
        Record::Tables(_) | Record::Checked(_, _) => Some(Event::Noted),
        Record::Audit(_, _)
        | Record::Keep(_, _, _, _)
        | Record::Set(_, _, _, _)
        | Record::Gone(_, _) => None,
    }
}

// Whether its numbers are read as they are written.
fn is_small(said: Record<'_>) -> bool
    ensures { result ≡ true → AllByRecursion (λ n. n < 2 ^ 63) (numbers_of (seen said.entry)) }
{
    match said {
        Record::Took(file, _) | Record::Refused(file, _) => file.number < LIMIT && file.uid < LIMIT,
        Record::Ran(number, _)
        | Record::Audit(number, _)
        | Record::Set(number, _, _, _)
        | Record::Gone(number, _)
        | Record::Dropped(number, _, _)
        | Record::Checked(number, _) => number < LIMIT,
        Record::Keep(number, _, other, _) | Record::Gave(number, other) => number < LIMIT
            && other < LIMIT,
        Record::Tables(_) | Record::Edit(_, _) => true,
    }
}

// The text of a commit behind one of this digest; none where it is too long to be read, or a number too large.
pub(crate) fn event_text(
    alloc: Global,
    before: &[u8],
    entry: Entry<'_>,
    change: &[u8],
) -> Result<Option<Vec<u8>>, AllocError>
    ensures says { IfOk result (λ found. IfSome found (λ text.
        event_behind before.now (commit_of text.items) ≡ event_of (seen entry.entry.«record») change.now)) }
    ensures sent { IfOk result (λ found. IfSome found (λ text. sent_in (commit_of text.items) ≡ sent_by (seen entry.entry.«record»))) }
{
    if entry.time >= LIMIT {
        return Ok(None);
    }
    if !is_small(entry.record) {
        return Ok(None);
    }
    let head = record_text(alloc, entry.time, entry.record)?;
    let text = commit_text(alloc, &[before, head.as_slice(), change])?;
    if text.len() as u64 >= LIMIT {
        return Ok(None);
    }
    reads_back();
    reads_records();
    Ok(Some(text))
}
