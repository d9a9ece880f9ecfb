//! Whether each commit names the one before it, and each submission's run comes to the same again.
ghost use Rattle.std.specs.Prelude.{◌≡◌, ◌++◌, ◌∷◌, [], true, IfOk, OnOk};
ghost use Rattle.ledger_text.specs.Text.{commit_of};
ghost use Rattle.ledger_text.specs.Digests.{digest_of};
ghost use Rattle.ledger_text.specs.Records.{seen};
ghost use Rattle.ledger_site.specs.Past.{texts_in};
ghost use Rattle.ledger_site.specs.Verifying.{names, broken_from, again, comes_to, holds, behind_said, other_from};

use crate::past::{Said, said_in};
use ledger_run::{LedgerError, Machine};
use ledger_text::{Record, digest, read_commit};
use std::alloc::{AllocError, Global};
use std::collections::VecDeque;

/// The number of the first commit, counted from 0, that does not name the one before it, if there is one. The first one names none.
///
/// # Errors
///
/// Where a growth was refused.
pub fn first_broken(alloc: Global, commits: &[Vec<u8>]) -> Result<Option<u64>, AllocError>
    ensures { IfOk result (λ found. found ≡ broken_from (λ text. text.items) 0 [] commits.now) }
{
    let mut last = Vec::new(alloc);
    for place in 0..commits.len() {
        if !stands_behind(alloc, &mut last, &commits[place])? {
            return Ok(Some(place as u64));
        }
    }
    Ok(None)
}

// Whether a commit names the one of this digest; its own is there from then on.
fn stands_behind(alloc: Global, last: &mut Vec<u8>, text: &[u8]) -> Result<bool, AllocError>
    ensures stands { IfOk result (λ stands. stands ≡ names last.old.items (commit_of text.now)) }
    ensures last { OnOk result (last.new.items ≡ digest_of text.now) }
{
    let stands = names(alloc, last, text)?;
    let own = digest(alloc, text)?;
    *last = own;
    Ok(stands)
}

// Whether the first field of a commit is this digest.
fn names(alloc: Global, before: &[u8], text: &[u8]) -> Result<bool, AllocError>
    ensures { IfOk result (λ named. named ≡ names before.now (commit_of text.now)) }
{
    let Some(fields) = read_commit(alloc, text)? else {
        return Ok(false);
    };
    match fields.as_slice() {
        [named, _, _] => Ok(*named == before),
        _ => Ok(false),
    }
}

/// The number of the first commit, counted from 0, of a submission's run that comes to something else when it is run again, by a machine
/// that has no change behind it yet; none where each comes to the same.
///
/// # Errors
///
/// Where a growth was refused, the machine can't run a submission, or one of these is no commit of a ledger (`Refused`).
pub fn first_other<M: Machine>(
    alloc: Global,
    machine: &mut M,
    commits: &[Vec<u8>],
) -> Result<Option<u64>, LedgerError>
    ensures { IfOk result (λ found. found ≡ other_from (λ text. text.items) M.step 0 commits.now (again [] (M.behind machine.old))) }
{
    let mut waiting = VecDeque::new(alloc);
    for place in 0..commits.len() {
        let said = said_in(alloc, &commits[place])?;
        if !follow(machine, said, &mut waiting)? {
            return Ok(Some(place as u64));
        }
    }
    Ok(None)
}

// Whether a commit has what comes out again.
fn follow<'a, M: Machine>(
    machine: &mut M,
    said: Said<'a>,
    waiting: &mut VecDeque<&'a [u8]>,
) -> Result<bool, LedgerError>
    ensures same { IfOk result (λ same. same
        ≡ holds M.step (seen said.entry.«record») said.entry.change.now (again (texts_in waiting.old.items) (M.behind machine.old))) }
    ensures behind { IfOk result (λ same. same ≡ true → again (texts_in waiting.new.items) (M.behind machine.new)
        ≡ behind_said (seen said.entry.«record») said.entry.change.now (again (texts_in waiting.old.items) (M.behind machine.old))) }
{
    match said.record {
        Record::Took(_, text) => {
            waiting.push_back(text)?;
            Ok(true)
        }
        Record::Ran(_, printout) => match waiting.pop_front() {
            Some(text) => run_again(machine, text, printout, said.change),
            None => Ok(false),
        },
        Record::Dropped(_, _, _) => Ok(waiting.pop_front().is_some()),
        Record::Edit(_, _) => {
            machine.apply(said.change)?;
            Ok(true)
        }
        _ => Ok(true),
    }
}

// Whether a submission prints this and changes this.
fn run_again<M: Machine>(
    machine: &mut M,
    text: &[u8],
    printout: &[u8],
    change: &[u8],
) -> Result<bool, LedgerError>
    ensures same { IfOk result (λ same. same ≡ comes_to M.step (text.now ∷ []) (M.behind machine.old) printout.now change.now) }
    ensures behind { OnOk result (M.behind machine.new ≡ M.behind machine.old ++ change.now ∷ []) }
{
    let outcome = machine.run(text)?;
    machine.apply(change)?;
    Ok(outcome.printout.as_slice() == printout && outcome.change.as_slice() == change)
}
