//! What a ledger has in memory, as a text of a checkpoint, and the ledger that such a text says.
ghost use Rattle.std.specs.Prelude.{◌≡◌, map, IfOk, IfSome};
ghost use Rattle.ledger_index.specs.Course.{course_text, seen_kept, seen_list};
ghost use Rattle.ledger_run.specs.Known.{kept_waiting, kept_owed, course_by, IsKnown};

use crate::sender::sender_of;
use crate::{Ledger, Owed, Sender, Waiting};
use ledger_index::{Course, Kept, course_text, read_course};
use ledger_text::Claimed;
use std::alloc::{AllocError, Global};
use std::collections::VecDeque;

/// What a ledger has in memory besides the state, as a text.
///
/// # Errors
///
/// Where a growth was refused.
pub fn course_of(alloc: Global, ledger: &Ledger) -> Result<Vec<u8>, AllocError>
    ensures { IfOk result (λ text. text.items ≡ course_text (course_by ledger.now)) }
{
    let waiting = those_waiting(alloc, ledger)?;
    let owed = those_owed(alloc, ledger)?;
    let course = Course {
        next: ledger.next,
        waiting,
        owed,
    };
    course_text(alloc, &course)
}

fn file_of<'a>(number: u64, sender: &'a Sender) -> Claimed<'a>
    ensures number { result.number ≡ number }
    ensures account { result.account.now ≡ sender.now.account.items }
    ensures uid { result.uid ≡ sender.now.uid }
    ensures name { result.name.now ≡ sender.now.name.items }
{
    Claimed {
        number,
        account: &sender.account,
        uid: sender.uid,
        name: &sender.name,
    }
}

fn kept_waiting<'a>(one: &'a Waiting) -> Kept<'a>
    ensures { seen_kept result ≡ kept_waiting one.now }
{
    Kept {
        file: file_of(one.number, &one.sender),
        text: &one.text,
    }
}

fn kept_owed<'a>(one: &'a Owed) -> Kept<'a>
    ensures { seen_kept result ≡ kept_owed one.now }
{
    Kept {
        file: file_of(one.number, &one.sender),
        text: &one.bytes,
    }
}

fn those_waiting<'a>(alloc: Global, ledger: &'a Ledger) -> Result<Vec<Kept<'a>>, AllocError>
    ensures { IfOk result (λ list. seen_list list.items ≡ map kept_waiting ledger.now.waiting.items) }
{
    let mut list = Vec::new(alloc);
    for place in 0..ledger.waiting.len() {
        if let Some(one) = ledger.waiting.get(place) {
            list.push(kept_waiting(one))?;
        }
    }
    Ok(list)
}

fn those_owed<'a>(alloc: Global, ledger: &'a Ledger) -> Result<Vec<Kept<'a>>, AllocError>
    ensures { IfOk result (λ list. seen_list list.items ≡ map kept_owed ledger.now.owed.items) }
{
    let mut list = Vec::new(alloc);
    for one in &ledger.owed {
        list.push(kept_owed(one))?;
    }
    Ok(list)
}

/// The ledger behind so many commits, of which the last has this digest, that such a text says; none where it is no such text.
///
/// # Errors
///
/// Where a growth was refused.
pub fn known_ledger(
    alloc: Global,
    count: u64,
    last: &[u8],
    text: &[u8],
) -> Result<Option<Ledger>, AllocError>
    ensures { IfOk result (λ found. IfSome found (λ ledger. IsKnown text.now count last.now ledger)) }
{
    let Some(course) = read_course(alloc, text)? else {
        return Ok(None);
    };
    let waiting = waiting_in(alloc, &course.waiting)?;
    let owed = owed_in(alloc, &course.owed)?;
    let last = last.to_vec(alloc)?;
    Ok(Some(Ledger {
        alloc,
        waiting,
        owed,
        next: course.next,
        commits: count,
        last,
    }))
}

fn waiting_by(alloc: Global, one: Kept<'_>) -> Result<Waiting, AllocError>
    ensures { IfOk result (λ waiting. kept_waiting waiting ≡ seen_kept one.entry) }
{
    let sender = sender_of(alloc, one.file)?;
    let text = one.text.to_vec(alloc)?;
    Ok(Waiting {
        number: one.file.number,
        text,
        sender,
    })
}

fn owed_by(alloc: Global, one: Kept<'_>) -> Result<Owed, AllocError>
    ensures { IfOk result (λ owed. kept_owed owed ≡ seen_kept one.entry) }
{
    let sender = sender_of(alloc, one.file)?;
    let bytes = one.text.to_vec(alloc)?;
    Ok(Owed {
        number: one.file.number,
        bytes,
        sender,
    })
}

fn waiting_in(alloc: Global, list: &[Kept<'_>]) -> Result<VecDeque<Waiting>, AllocError>
    ensures { IfOk result (λ waiting. map kept_waiting waiting.items ≡ seen_list list.now) }
{
    let mut waiting = VecDeque::new(alloc);
    for one in list {
        let next = waiting_by(alloc, *one)?;
        waiting.push_back(next)?;
    }
    Ok(waiting)
}

fn owed_in(alloc: Global, list: &[Kept<'_>]) -> Result<Vec<Owed>, AllocError>
    ensures { IfOk result (λ owed. map kept_owed owed.items ≡ seen_list list.now) }
{
    let mut owed = Vec::new(alloc);
    for one in list {
        let next = owed_by(alloc, *one)?;
        owed.push(next)?;
    }
    Ok(owed)
}
