//! How far a run had come where memory ran out.
ghost use Rattle.std.specs.Prelude.{◌≡◌, ◌==◌, ◌<◌, ◌+◌, ◌-◌, ◌^◌, ◌++◌, None, length, OnOk, if◌then◌else◌};
ghost use Rattle.deck_driver.specs.Holding.{most_at};
ghost use Rattle.deck_run.specs.Faults.{shortage_line, job_text, holder_text, name_text};
ghost use Rattle.deck_run.specs.inner.Ending.{ended_by};

use deck_driver::{DeckFeed, Holder};
use mon_text::put_number;
use std::alloc::AllocError;

/// How far a run had come where memory ran out.
#[derive(Drop)]
pub struct Shortage {
    /// The line of the deck that was being read, counted from 1.
    pub line: u64,
    /// The job in a slot that held most of its printout when the line's card came, if some slot had a job.
    pub job: Option<Holder>,
}

impl Shortage {
    /// Before the first line.
    pub fn new() -> Shortage
        ensures line { result.line ≡ 1 }
        ensures job { result.job ≡ None }
    {
        Shortage { line: 1, job: None }
    }

    // Behind a part of the deck, before which so many commands had been counted: notes which job holds most, unless the part
    // was a command. What jobs hold changes only where turns are given or a job comes, so behind a command what was noted stays.
    pub(crate) fn look(&mut self, feed: &DeckFeed, commands: u64)
        ensures line { self.new.line ≡ self.old.line }
        ensures job { self.new.job ≡ (if feed.now.counts.commands == commands then most_at feed.now.state self.old.job else self.old.job) }
    {
        feed.note_most(commands, &mut self.job);
    }

    // Behind a part of the deck in which at most one line ended: counts that line.
    pub(crate) fn pass(&mut self, part: &[u8])
        requires full { 0 < length part.now }
        requires few { self.old.line < 2 ^ 64 - 1 }
        ensures line { self.new.line ≡ self.old.line + ended_by part.now }
        ensures job { self.new.job ≡ self.old.job }
    {
        if part[part.len() - 1] == b'\n' {
            self.line += 1;
        }
    }
}

/// Appends the second line of standard error where memory ran out: how far the run had come.
///
/// # Errors
///
/// Where a growth was refused; a part of the line may have been appended.
pub fn put_shortage(shortage: &Shortage, out: &mut Vec<u8>) -> Result<(), AllocError>
    ensures { OnOk result (out.new.items ≡ out.old.items ++ shortage_line shortage.now) }
{
    out.extend_from_slice(b"snomon: at line ")?;
    put_number(shortage.line, out)?;
    put_job(&shortage.job, out)?;
    out.extend_from_slice(b"\n")
}

// Appends which job held most, if one did.
fn put_job(job: &Option<Holder>, out: &mut Vec<u8>) -> Result<(), AllocError>
    ensures { OnOk result (out.new.items ≡ out.old.items ++ job_text job.now) }
{
    match job {
        None => Ok(()),
        Some(job) => put_holder(job, out),
    }
}

// Appends how much a job holds.
fn put_holder(job: &Holder, out: &mut Vec<u8>) -> Result<(), AllocError>
    ensures { OnOk result (out.new.items ≡ out.old.items ++ holder_text job.now) }
{
    put_name(job, out)?;
    out.extend_from_slice(b" holds most: ")?;
    put_number(job.bytes, out)?;
    out.extend_from_slice(b" bytes of printout")
}

// Appends which job it is, and whose.
fn put_name(job: &Holder, out: &mut Vec<u8>) -> Result<(), AllocError>
    ensures { OnOk result (out.new.items ≡ out.old.items ++ name_text job.now) }
{
    out.extend_from_slice(b"; job ")?;
    put_number(job.number, out)?;
    out.extend_from_slice(b" of ")?;
    out.extend_from_slice(job.account.as_bytes())
}
