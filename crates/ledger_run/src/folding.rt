//! One event behind the others: whether it may be the next, and what the ledger in memory comes to.
ghost use Rattle.std.specs.Prelude.{◌≡◌, ◌+◌, ◌<◌, ◌^◌, true, OnOk};
ghost use Rattle.ledger_text.specs.Digests.{digest_of};
ghost use Rattle.ledger_run.specs.Runs.{seen_ledger};
ghost use Rattle.ledger_run.specs.Following.{seen_event, first_number, is_number, may_follow};
ghost use Rattle.ledger_run.specs.Following.{with_text, with_answer, with_next, first_answered, with_commit, after_event, changed_by};
ghost use Rattle.ledger_run.specs.Senders.{seen_sender, sender_of};

use crate::event::Event;
use crate::sender::sender_of;
use crate::{Ledger, LedgerError, Machine, Owed, Sender, Waiting};
use ledger_text::{Claimed, digest};
use std::alloc::AllocError;

// The number of the first text that waits.
pub(crate) fn first_number(ledger: &Ledger) -> Option<u64>
    ensures { result ≡ first_number (seen_ledger ledger.now).waiting }
{
    match ledger.waiting.front() {
        Some(first) => Some(first.number),
        None => None,
    }
}

// Whether it may be the next event: a new number is beyond all before it, and the first text that waits is the one that runs.
pub(crate) fn may_follow(ledger: &Ledger, event: Event<'_>) -> bool
    ensures { result ≡ may_follow ledger.now.next (first_number (seen_ledger ledger.now).waiting) (seen_event event.entry) }
{
    match event {
        Event::Took(file, _) | Event::Refused(file, _) => ledger.next <= file.number
            && file.number < u64::MAX,
        Event::Ran(number, _, _) | Event::Dropped(number, _) => match first_number(ledger) {
            Some(first) => number == first,
            None => false,
        },
        Event::Edited(_) | Event::Gave | Event::Noted => true,
    }
}

// A text waits.
fn wait(ledger: &mut Ledger, file: Claimed<'_>, text: &[u8]) -> Result<(), AllocError>
    requires { file.number + 1 < 2 ^ 64 }
    ensures { OnOk result (seen_ledger ledger.new ≡ with_text file.entry.number (sender_of file.entry) text.now (seen_ledger ledger.old)) }
{
    let sender = sender_of(ledger.alloc, file)?;
    let text = text.to_vec(ledger.alloc)?;
    let number = file.number;
    ledger.waiting.push_back(Waiting {
        number,
        text,
        sender,
    })?;
    ledger.next = number + 1;
    Ok(())
}

fn owe(ledger: &mut Ledger, number: u64, sender: Sender, reply: &[u8]) -> Result<(), AllocError>
    ensures { OnOk result (seen_ledger ledger.new ≡ with_answer number (seen_sender sender) reply.now (seen_ledger ledger.old)) }
{
    let bytes = reply.to_vec(ledger.alloc)?;
    ledger.owed.push(Owed {
        number,
        bytes,
        sender,
    })?;
    Ok(())
}

// A file is answered at once.
fn answer_file(ledger: &mut Ledger, file: Claimed<'_>, reply: &[u8]) -> Result<(), AllocError>
    requires { file.number + 1 < 2 ^ 64 }
    ensures { OnOk result (seen_ledger ledger.new
        ≡ with_answer file.entry.number (sender_of file.entry) reply.now (with_next file.entry.number (seen_ledger ledger.old))) }
{
    ledger.next = file.number + 1;
    let sender = sender_of(ledger.alloc, file)?;
    owe(ledger, file.number, sender, reply)
}

// The first text that waits is answered.
fn answer_first(ledger: &mut Ledger, number: u64, reply: &[u8]) -> Result<(), AllocError>
    requires { is_number number (first_number (seen_ledger ledger.old).waiting) ≡ true }
    ensures { OnOk result (seen_ledger ledger.new ≡ first_answered number reply.now (seen_ledger ledger.old)) }
{
    match ledger.waiting.pop_front() {
        Some(first) => owe_first(ledger, number, first, reply),
        None => Ok(()),
    }
}

// A text that waits no more is answered.
fn owe_first(
    ledger: &mut Ledger,
    number: u64,
    first: Waiting,
    reply: &[u8],
) -> Result<(), AllocError>
    ensures { OnOk result (seen_ledger ledger.new ≡ with_answer number (seen_sender first.sender) reply.now (seen_ledger ledger.old)) }
{
    let Waiting {
        number: _,
        text,
        sender,
    } = first;
    drop(text);
    owe(ledger, number, sender, reply)
}

// The ledger in memory, and the machine, behind this event.
pub(crate) fn follow<M: Machine>(
    machine: &mut M,
    ledger: &mut Ledger,
    event: Event<'_>,
) -> Result<(), LedgerError>
    requires { may_follow ledger.old.next (first_number (seen_ledger ledger.old).waiting) (seen_event event) ≡ true }
    ensures ledger { OnOk result (seen_ledger ledger.new ≡ after_event event.entry (seen_ledger ledger.old)) }
    ensures machine { OnOk result (M.behind machine.new ≡ changed_by event.entry (M.behind machine.old)) }
{
    match event {
        Event::Took(file, text) => wait(ledger, file, text)?,
        Event::Refused(file, reply) => answer_file(ledger, file, reply)?,
        Event::Ran(number, printout, change) => {
            machine.apply(change)?;
            answer_first(ledger, number, printout)?;
        }
        Event::Dropped(number, reply) => answer_first(ledger, number, reply)?,
        Event::Edited(change) => machine.apply(change)?,
        Event::Gave => ledger.owed.clear(),
        Event::Noted => {}
    }
    Ok(())
}

// One commit more stands, of this text.
pub(crate) fn count_commit(ledger: &mut Ledger, text: &[u8]) -> Result<(), AllocError>
    requires { ledger.old.commits + 1 < 2 ^ 64 }
    ensures { OnOk result (seen_ledger ledger.new ≡ with_commit (digest_of text.now) (seen_ledger ledger.old)) }
{
    ledger.last = digest(ledger.alloc, text)?;
    ledger.commits += 1;
    Ok(())
}
