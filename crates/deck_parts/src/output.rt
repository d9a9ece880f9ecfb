//! What a part wrote, cut into the printouts of its texts and its data sets.
ghost use Rattle.std.specs.Prelude.{◌≡◌, ◌++◌, suc, ◌∷◌, List, IfOk, OnOk};
ghost use Rattle.deck_parts.specs.declared.record.TextNote.{TextNote as Note};
ghost use Rattle.deck_parts.specs.Numbers.{dues_of, job_line, number_in};

use crate::pieces::first_piece;
use crate::record::{Record, TextNote};
use crate::whole::first_set;
use indexmap::IndexMap;
use mon_text::{Name, Stop, put_number, read_count};
use parts::Part;
use std::alloc::{AllocError, Global};
use std::mem;

/// The heading of a catalogue.
const HEADING: &[u8] = b"$CATALOGUE 2\n";

/// A line of what a part wrote that is not what the part writes there, counted from 1.
#[derive(Clone, Copy)]
pub struct Misfit {
    pub line: u64,
}

/// A text of a part: its number in the whole, how many printouts and jobs it has, and how many jobs stand before it in the whole, and in
/// the part.
#[derive(Clone, Copy)]
pub(crate) struct Due {
    pub(crate) number: u64,
    pub(crate) commands: u64,
    pub(crate) jobs: u64,
    pub(crate) before: u64,
    pub(crate) ahead: u64,
}

/// The texts of a part.
pub(crate) fn dues(alloc: Global, kept: &Record, part: u64) -> Result<Vec<Due>, AllocError>
    ensures { IfOk result (λ dues. dues.items ≡ dues_of part 0 0 0 kept.now.texts.items) }
{
    dues_in(alloc, &kept.texts, part)
}

#[tactic(auto, using(crate::proofs::Dues::one_due, crate::proofs::Dues::all_due))]
fn dues_in(alloc: Global, texts: &[TextNote], part: u64) -> Result<Vec<Due>, AllocError>
    ensures { IfOk result (λ dues. dues.items ≡ dues_of part 0 0 0 texts.now) }
{
    let mut found = Found {
        dues: Vec::new(alloc),
        before: 0,
        ahead: 0,
    };
    for (place, text) in texts.iter().enumerate() {
        found.add(part, place as u64, *text)?;
    }
    Ok(found.dues)
}

/// The texts of a part among those so far, and how many jobs all of those have, and the part's.
#[derive(Drop)]
struct Found {
    dues: Vec<Due>,
    before: u64,
    ahead: u64,
}

impl Found {
    fn add(&mut self, part: u64, place: u64, text: TextNote) -> Result<(), AllocError>
        ensures { (rest : List Note) → OnOk result (self.new.dues.items ++ dues_of part (suc place) self.new.before self.new.ahead rest
            ≡ self.old.dues.items ++ dues_of part place self.old.before self.old.ahead (text ∷ rest)) }
    {
        if text.part == part {
            self.dues
                .push(due_of(place, text, self.before, self.ahead))?;
            self.ahead = self.ahead.saturating_add(text.jobs);
        }
        self.before = self.before.saturating_add(text.jobs);
        Ok(())
    }
}

fn due_of(number: u64, text: TextNote, before: u64, ahead: u64) -> Due
    ensures { result ≡ record { number = number; commands = text.commands; jobs = text.jobs; before = before; ahead = ahead } }
{
    Due {
        number,
        commands: text.commands,
        jobs: text.jobs,
        before,
        ahead,
    }
}

impl Due {
    /// The number in the whole of the job that has this one in the part.
    pub(crate) fn number_of(&self, job: u64) -> u64
        ensures { result ≡ number_in self.now job }
    {
        job.saturating_sub(self.ahead).saturating_add(self.before)
    }

    /// The number in the part of its last job.
    pub(crate) fn last_job(&self) -> u64 {
        self.ahead.saturating_add(self.jobs)
    }

    /// How many printouts it has.
    fn printouts(&self) -> u64 {
        self.commands.saturating_add(self.jobs)
    }
}

/// The texts of a part, as far as they were taken from what it wrote.
#[derive(Drop)]
pub(crate) struct Taking {
    pub(crate) dues: Vec<Due>,
    pub(crate) at: usize,
    pub(crate) taken: u64,
    pub(crate) last: u64,
    pub(crate) current: Vec<u8>,
    pub(crate) printed: IndexMap<u64, Vec<u8>>,
}

impl Taking {
    pub(crate) fn new(alloc: Global, dues: Vec<Due>) -> Taking {
        Taking {
            dues,
            at: 0,
            taken: 0,
            last: 0,
            current: Vec::new(alloc),
            printed: IndexMap::new(alloc),
        }
    }

    /// The text at hand.
    pub(crate) fn due(&self) -> Option<Due> {
        match self.dues.get(self.at) {
            Some(due) => Some(*due),
            None => None,
        }
    }

    /// What was taken is all of the text at hand; the next one is.
    pub(crate) fn step(&mut self, alloc: Global, number: u64) -> Result<(), AllocError> {
        let text = mem::replace(&mut self.current, Vec::new(alloc));
        let before = self.printed.insert(number, text)?;
        drop(before);
        self.at = self.at.saturating_add(1);
        Ok(())
    }

    // Steps over the texts that have all their printouts.
    fn settle(&mut self, alloc: Global) -> Result<(), AllocError> {
        for _ in 0..self.dues.len() {
            match self.due() {
                Some(due) if due.printouts() <= self.taken => {
                    self.step(alloc, due.number)?;
                    self.taken = 0;
                }
                _ => break,
            }
        }
        Ok(())
    }

    // Takes a line that begins a printout: whether one is due.
    fn take_title(&mut self, alloc: Global, line: &[u8]) -> Result<bool, AllocError> {
        self.settle(alloc)?;
        let Some(due) = self.due() else {
            return Ok(false);
        };
        self.taken = self.taken.saturating_add(1);
        match line.strip_prefix(b"JOB ".as_slice()) {
            Some(rest) => put_job(&mut self.current, due, rest),
            None => {
                self.current.extend_from_slice(line)?;
                Ok(true)
            }
        }
    }

    // Takes a line of what a part printed: whether it is one.
    fn take(&mut self, alloc: Global, line: &[u8]) -> Result<bool, AllocError> {
        if is_title(line) {
            return self.take_title(alloc, line);
        }
        self.current.extend_from_slice(line)?;
        Ok(self.taken > 0)
    }
}

/// A line that has a job's number behind its first word, with the number that the job has in the whole: whether it is one.
pub(crate) fn put_job(out: &mut Vec<u8>, due: Due, rest: &[u8]) -> Result<bool, AllocError> {
    match job_on(rest) {
        Some((job, behind)) if job > due.ahead && job <= due.last_job() => {
            put_line(out, due, job, behind)?;
            Ok(true)
        }
        _ => Ok(false),
    }
}

fn put_line(out: &mut Vec<u8>, due: Due, job: u64, behind: &[u8]) -> Result<(), AllocError>
    ensures { OnOk result (out.new.items ≡ out.old.items ++ job_line due job behind.now) }
{
    out.extend_from_slice(b"JOB ")?;
    put_number(due.number_of(job), out)?;
    out.extend_from_slice(behind)
}

/// The number that a text begins with, and what is behind it.
pub(crate) fn job_on(text: &[u8]) -> Option<(u64, &[u8])> {
    let mut end: usize = 0;
    for byte in text {
        if !byte.is_ascii_digit() {
            break;
        }
        end = end.saturating_add(1);
    }
    let digits = text.get(..end)?;
    let rest = text.get(end..)?;
    let number = read_count(digits).ok()?;
    Some((number, rest))
}

// Whether a line begins a printout: no other begins with such a word.
fn is_title(line: &[u8]) -> bool {
    let Some(first) = line.first() else {
        return false;
    };
    match *first {
        b'J' => line.starts_with(b"JOB "),
        b'C' => line.starts_with(b"CREATE ") || line.starts_with(b"CATALOG "),
        b'D' => line.starts_with(b"DELETE "),
        b'S' => line.starts_with(b"SETACL ") || line.starts_with(b"SHOWACL "),
        b'L' => line.starts_with(b"LIST "),
        _ => false,
    }
}

/// What the part of this number gave, by what it wrote.
///
/// # Errors
///
/// The first line that the part does not write there; `Memory` where a growth was refused.
pub fn take_output(
    alloc: Global,
    record: &Record,
    part: u64,
    output: &[u8],
) -> Result<Part, Stop<Misfit>> {
    let mut taking = Taking::new(alloc, dues(alloc, record, part)?);
    let (line, catalogue) = take_printouts(alloc, &mut taking, output)?;
    let left = sets_of(alloc, catalogue, line)?;
    if has_all(record, part, &left) {
        Ok(Part {
            printed: taking.printed,
            left,
        })
    } else {
        Err(Stop::Refused(Misfit { line }))
    }
}

// Takes all that stands before the data sets; what is left is these, and the number of the line before them.
fn take_printouts<'a>(
    alloc: Global,
    taking: &mut Taking,
    output: &'a [u8],
) -> Result<(u64, &'a [u8]), Stop<Misfit>> {
    let mut number: u64 = 1;
    let mut rest = output;
    'lines: while !rest.is_empty() {
        let (line, behind) = first_piece(rest);
        rest = behind;
        if line == HEADING {
            return finish(alloc, taking, number, rest);
        }
        if !taking.take(alloc, line)? {
            break;
        }
        number = number.saturating_add(1);
    }
    Err(Stop::Refused(Misfit { line: number }))
}

// Each text has its printouts.
fn finish<'a>(
    alloc: Global,
    taking: &mut Taking,
    line: u64,
    rest: &'a [u8],
) -> Result<(u64, &'a [u8]), Stop<Misfit>> {
    taking.settle(alloc)?;
    match taking.due() {
        Some(_) => Err(Stop::Refused(Misfit { line })),
        None => Ok((line, rest)),
    }
}

// The data sets of a catalogue, to its end, behind a line of this number.
fn sets_of(
    alloc: Global,
    catalogue: &[u8],
    line: u64,
) -> Result<IndexMap<Name, Vec<u8>>, Stop<Misfit>> {
    let mut left = IndexMap::new(alloc);
    let mut rest = catalogue;
    'sets: while !rest.is_empty() {
        let Some((set, behind)) = first_set(alloc, rest)? else {
            return Err(Stop::Refused(Misfit { line }));
        };
        match left.insert(set.name, set.text) {
            Ok(before) => drop(before),
            Err(_) => return Err(Stop::Memory),
        }
        rest = behind;
    }
    Ok(left)
}

// Whether these are the data sets that the part has in the end.
fn has_all(record: &Record, part: u64, left: &IndexMap<Name, Vec<u8>>) -> bool {
    let mut count: usize = 0;
    for set in &record.sets {
        if set.part == part {
            if left.get(&set.name).is_none() {
                return false;
            }
            count = count.saturating_add(1);
        }
    }
    count == left.len()
}
